//! The blocks that work on the bits of a matrix of registers
//! (*Modicon Ladder Logic Block Library User Guide*).
#![tactic(auto)]

mod bits;
mod combining;
mod comparing;
mod single_bits;
mod turning;

pub use combining::{and, comp, or, xor};
pub use comparing::cmpr;
pub use single_bits::{mbit, sens, sets_one_bit};
pub use turning::brot;
