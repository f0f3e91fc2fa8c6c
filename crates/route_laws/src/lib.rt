//! What each joint history of a plant says of the effects of calls, over any number of networks
//! and bridges.
#![tactic(auto)]

mod laws;

pub use laws::{
    effects_are_at_their_end, effects_are_own, effects_are_right, finishes_have_results,
    offs_have_no_effect, requests_are_taken_on_once, success_is_one_effect_on_way,
    ways_have_one_effect, ways_of_one_network,
};
