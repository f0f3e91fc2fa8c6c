//! The controller whose parts are read.
use plant_types::Sizes;

/// The controller whose parts are read: its position in the file, from 1, its node, its network,
/// and the sizes of its map.
#[derive(Clone, Copy)]
pub struct Owner {
    pub position: u32,
    pub node: u8,
    pub network: u8,
    pub sizes: Sizes,
}
