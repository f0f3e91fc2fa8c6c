//! Controllers that exchange words by wires: the words that drops send, the script rows that are
//! made of them, how many rows a drop has to have, and the run of a plant with its wires. All of it
//! is this project's own.
#![tactic(auto)]

mod exchanges;
mod feeding;
mod going_on;
mod laws;
mod rows;
mod running;
mod scripts;
mod sending;
mod sources;
mod starting;
mod wired;

pub use exchanges::{exchanges_among, inputs_a_scan};
pub use laws::{
    exchanges_are_counted, readers_follow, repetitions_exchange, repetitions_go_on,
    rows_follow_rules, rows_stay, sendings_follow,
};
pub use rows::{own_row, row_made};
pub use running::WireReader;
pub use sending::Sending;
pub use sources::Source;
pub use wired::{Exchanged, cop_run};
