//! Where blocks and networks stand in the segments of a controller.
ghost use Rattle.std.specs.Prelude.{◌≡◌};
ghost use Rattle.ladder_solver.specs.Network.{place_in};

use plant_types::Element;

/// The place of a block: its segment, its network in the segment, and the column and row of its
/// top node, each counted from 1. This project's own.
#[derive(Clone, Copy)]
pub struct BlockPlace {
    pub segment: usize,
    pub network: usize,
    pub column: u8,
    pub row: u8,
}

/// An element at its place, and the number of its MSTR block.
#[derive(Clone, Copy)]
pub(crate) struct Placed {
    pub element: Element,
    pub place: BlockPlace,
    pub block: u16,
}

/// Which network of a controller: its segment, and its number in the segment, each counted from 1.
#[derive(Clone, Copy)]
pub(crate) struct Site {
    pub segment: usize,
    pub network: usize,
}

impl Site {
    /// The place of a block in the network.
    pub fn place(self, column: u8, row: u8) -> BlockPlace
        ensures { result ≡ place_in self column row }
    {
        BlockPlace {
            segment: self.segment,
            network: self.network,
            column,
            row,
        }
    }
}
