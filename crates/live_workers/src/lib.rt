//! The workers of controllers, hosts and bridges in threads, each at its sides of the rings.
#![tactic(auto)]

mod bridging;
mod crews;
mod flags;
mod hosting;
mod pairs;
mod pauses;
mod scanning;
mod stations;
mod talking;

pub use crews::{Crew, Run};
pub use stations::{Ends, NotedLog, Station, run_all};
pub use turn_laws::{controllers_complete, hosts_complete};
