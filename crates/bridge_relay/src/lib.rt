//! A bridge: one station with an address on each of two networks, which gives requests on across it
//! and gives their replies back.
#![tactic(auto)]

mod bridge;
mod end;
mod entry;
mod following;
mod laws;
mod relay;

pub use bridge::Bridge;
pub use entry::{BridgeEntry, RelayResult};
pub use laws::{
    calls_are_made_once, calls_out_are_under_way, finishes_end_calls, forwards_make_new_calls,
    numbers_count, own_entries_tell,
};
