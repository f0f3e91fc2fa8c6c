//! The tables of the controllers of a plant file: the plan of each, or its first fault.
#![tactic(auto)]

mod controller;
mod drops;
mod failures;
mod modules;
mod orders;
mod owner;
mod pieces;
mod program;
mod scripts;
mod stations;
mod texts;

pub use stations::{controllers_of, has_controller};
