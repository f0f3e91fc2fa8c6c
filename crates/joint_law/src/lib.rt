//! The judge of joint histories: whether all lists of a plant's run are legal, keep the laws
//! between them and are complete, and else the first spot where not.
#![tactic(auto)]

mod complete;
mod courses;
mod judging;
mod law_spots;
mod laws;
mod on_rings;
mod sections;
mod verdict;

pub use judging::{judge, judge_noted};
pub use law_spots::broken_law;
pub use laws::verdicts_agree;
pub use station_laws::Law;
pub use verdict::{Judgement, Spot, Verdict};
