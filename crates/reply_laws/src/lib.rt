//! What a reply comes to, and that this is what the grammar of requests and replies says.
#![tactic(auto)]

mod laws;
mod result;

pub use laws::{answers_give_their_result, others_give_none, unasked_give_codes};
pub use result::{NO_RESULT, result_of};
