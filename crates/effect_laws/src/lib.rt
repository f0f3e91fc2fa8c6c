//! What the effects of calls are, and lemmas of the lists of one station and of one ring: which
//! entries answer, serve and end a call.
#![tactic(auto)]
