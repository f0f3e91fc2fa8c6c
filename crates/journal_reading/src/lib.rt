//! The lines of a journal that are read back, one by one.
#![tactic(auto)]

mod bridge_read;
mod calls_read;
mod cutting;
mod ring_read;
mod routes_read;
mod stations_read;
mod words_read;

pub use bridge_read::read_bridge_entry;
pub use cutting::{LineFault, behind, cut, is_text, parted, read_small};
pub use ring_read::read_ring_entry;
pub use stations_read::{read_entry, read_host_entry};
