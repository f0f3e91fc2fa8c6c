//! One order in time of a list that all share and of each station's own list: what it is, and that
//! there is one wherever each station by itself is in time with the shared list. It holds for
//! entries of any type; which entry causes which is given as counts.
#![tactic(auto)]
