//! What a primary sends, and what a standby answers.
use controller_core::Entry;
use plant_types::List;

/// One scan of a primary: its events that are due, and all entries up to the next scan. This
/// project's own.
#[derive(Drop)]
pub struct Packet {
    /// The number of the scan, from 1.
    pub scan: u32,
    /// How many scans were acknowledged before it was sent.
    pub acked: u32,
    pub entries: List<Entry>,
}

/// What became of a packet that was taken. This project's own.
#[derive(Clone, Copy, Debug, PartialEq, Eq)]
pub enum Taken {
    /// The next scan: its entries stand in the history now.
    New,
    /// A scan that was there already.
    Repeated,
    /// A scan behind one that has not come yet.
    Early,
}

/// Why a packet was not taken. This project's own.
#[derive(Clone, Copy, Debug, PartialEq, Eq)]
pub enum StandbyNo {
    /// Its entries are not one scan's part that may come next.
    NotLegal,
    NoMemory,
}
