//! A host: a node that asks others, serves none, and keeps what it asked and was told.
#![tactic(auto)]

mod entry;
mod following;
mod host;
mod laws;

pub use entry::{HostEntry, HostResult};
pub use host::Host;
pub use laws::{
    answers_end_one_call, asks_have_new_names, asks_keep_calls, open_requests_follow,
    serving_keeps_calls,
};
