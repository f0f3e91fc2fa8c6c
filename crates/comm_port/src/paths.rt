//! The paths of a node: 0 for what it does at home, and those over the network.
use plant_types::PATH_PLACES;

/// All paths are chosen.
pub const ALL_PATHS: [bool; PATH_PLACES] = [true; PATH_PLACES];
