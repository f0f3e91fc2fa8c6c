//! One controller: its scan, its store and its history.
#![tactic(auto)]

mod call;
mod controller;
mod copied;
mod entry;
mod failing;
mod fixed;
mod following;
mod laws;
mod machine;
mod notes;
mod noting;
mod parts;
mod state;

pub use call::{Call, CallKind};
pub use controller::Controller;
pub use entry::{Entry, Maker, StepEnd};
pub use fixed::Fixed;
pub use ladder_solver::segments_keep_calls;
pub use laws::{
    answers_leave_the_scan, calls_follow, conditions_stay, ended_controllers_stay,
    entries_add_their_lines, entries_add_their_notes, fronts_are_legal, kept_power_is_on,
    notes_ask_no_scans, notes_tell_the_lines, rows_keep_histories, steps_add_their_lines,
    steps_make_the_run,
};
pub use notes::Notes;
pub use state::StateView;
