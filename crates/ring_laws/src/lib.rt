//! What every legal history of a ring says of its Requests and Replies.
#![tactic(auto)]

mod laws;

pub use laws::{
    given_up_word, only_its_target, posted_once, reply_by_taker, reply_to_its_caller, taken_once,
};
