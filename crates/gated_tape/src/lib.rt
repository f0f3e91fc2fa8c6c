//! Tapes of marks, each alone or behind a gate: how a worker with two sides is written and proved
//! over `turn_gate`.
//!
//! A side is a plain tape, or goes through a pass of a gate. The worker puts each mark on the first
//! tape and then on the second, and is proved once, over sides. `write_in_turns` runs many of them
//! in threads, each through a pass of each gate.
#![tactic(auto)]

mod cells;
mod crews;
mod gated;
mod refusals;
mod runs;
mod sides;
mod tapes;
mod workers;

pub use cells::TapeCell;
pub use crews::{Crew, Written, write_in_turns};
pub use gated::GatedSide;
pub use refusals::PutNo;
pub use sides::Side;
pub use tapes::{Mark, Tape};
pub use workers::write_both;
