//! What Modbus requests do to the references of a controller.
#![tactic(auto)]

mod answering;
mod end;
mod executing;
mod laws;
mod reading;
mod runs;
mod storing;
mod writing;

pub use answering::{answer, answer_twice};
pub use end::ExecEnd;
pub use executing::exec;
pub use laws::answers_follow_the_grammar;
