//! How the list of one controller, host, bridge or ring goes, and whether its station was done.
#![tactic(auto)]

mod completing;
mod ended;
mod following;
mod leaving;
mod replying;
mod ring_following;
mod standing;

pub use completing::{all_fit, all_fit_host, notices};
pub use ended::side_ends_each_call;
pub use following::{
    ControllerCourse, Course, controller_course, count_scans, follow_bridge, host_course,
};
pub use leaving::{has_gone, leaves_quietly};
pub use replying::{Given, answers_given, host_answers_given};
pub use ring_following::follow_ring;
pub use standing::status_by;
