//! What a judge says of a joint history.
use controller_core::Notes;
use plant_types::List;

/// Where a joint history first fails. Entries and places count from 1. This project's own.
#[derive(Clone, Copy, Debug, Drop, PartialEq, Eq)]
pub enum Spot {
    /// The lists are not those of the plant's stations, bridges and networks.
    Sections,
    /// The entry makes a controller's list illegal.
    Controller { node: u8, entry: u32 },
    /// The entry makes a host's list illegal.
    Host { node: u8, entry: u32 },
    /// The entry makes the list of a bridge, named by its left address, illegal.
    Bridge { left: u8, entry: u32 },
    /// The entry makes the list of a network's ring illegal.
    Ring { network: u8, entry: u32 },
    /// A law, 1 to 5, is broken between the list of a station, or that of a bridge for one of its
    /// ends, and its node's entries on the ring: the two lists that it compares differ at the
    /// place, and of the fifth the place is that of the first Down, counted among the node's own,
    /// that has no power failure of its own.
    Law { law: u8, node: u8, place: u32 },
    /// The station of this node was not done, or the end of a bridge.
    Incomplete(u8),
}

/// What a judge says. This project's own.
#[derive(Clone, Copy, Debug, Drop, PartialEq, Eq)]
pub enum Verdict {
    Legal,
    Illegal(Spot),
}

/// What a judge says, with what each controller noted of its panel, in the order of the joint
/// history, where that is legal. This project's own.
#[derive(Drop)]
pub enum Judgement {
    Legal(List<Notes>),
    Illegal(Spot),
}
