//! MSTR blocks: what each is in the middle of, the calls that they start, and what these come to
//! (*Modicon Ladder Logic Block Library User Guide*).
#![tactic(auto)]

mod answer;
mod bank;
mod blocks;
mod call;
mod control;
mod laws;
mod operation;
mod site;
mod state;

pub use bank::MstrBank;
pub use call::{CallId, MstrAsk, MstrCall, MstrResult, NOBODY_THERE};
pub use laws::{
    calls_are_taken_in_order, finishes_end_one_call, power_failures_keep_calls,
    solves_give_new_numbers, solves_keep_calls, stays_table,
};
