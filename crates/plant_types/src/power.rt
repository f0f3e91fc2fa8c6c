//! The power at the nodes of a block.
ghost use Rattle.std.specs.Prelude.{◌≡◌, ◌<◌};
ghost use Rattle.plant_types.specs.Power.{nodes_of, bits_of};

/// Which of a block's nodes have power, from the top down; a block has one to three nodes.
#[derive(Clone, Copy, Debug, PartialEq, Eq)]
pub struct NodePower {
    pub top: bool,
    pub middle: bool,
    pub bottom: bool,
}

impl NodePower {
    /// No node has power.
    pub const OFF: NodePower = NodePower {
        top: false,
        middle: false,
        bottom: false,
    };

    /// The top node alone.
    pub const TOP: NodePower = NodePower {
        top: true,
        middle: false,
        bottom: false,
    };

    /// The middle node alone.
    pub const MIDDLE: NodePower = NodePower {
        top: false,
        middle: true,
        bottom: false,
    };

    /// The bottom node alone.
    pub const BOTTOM: NodePower = NodePower {
        top: false,
        middle: false,
        bottom: true,
    };

    /// Bit 0 is the top node, bit 1 the second, bit 2 the third; higher bits tell nothing.
    pub fn of_bits(bits: u8) -> NodePower
        ensures { result ≡ nodes_of bits }
    {
        NodePower {
            top: bits % 2 == 1,
            middle: bits / 2 % 2 == 1,
            bottom: bits / 4 % 2 == 1,
        }
    }

    /// The bits of `of_bits`.
    pub fn bits(self) -> u8
        ensures bits { result ≡ bits_of self }
        ensures again { nodes_of result ≡ self }
        ensures small { result < 8 }
    {
        u8::from(self.top) + 2 * u8::from(self.middle) + 4 * u8::from(self.bottom)
    }
}
