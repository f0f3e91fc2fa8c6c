//! Hold turns of a bridge's end: what its node does with the token, over the two sides that it
//! works between.
#![tactic(auto)]

mod bridge_side;
mod calling;
mod ending;
mod giving;
mod relay_side;
mod serving;
mod worker;

pub use bridge_side::BridgeSide;
pub use comm_port::{RamSide, RingSide};
pub use worker::BridgeWorker;
