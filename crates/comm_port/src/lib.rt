//! Hold turns: what a station does with the token, over the two sides that it works between.
#![tactic(auto)]

mod asking;
mod calling;
mod controller_side;
mod ending;
mod failing;
mod giving;
mod host_worker;
mod leaving;
mod paths;
mod ram_side;
mod replies;
mod ring_side;
mod sending;
mod serving;
mod short;
mod taking;
mod turn_end;
mod visiting;
mod waiting;
mod worker;

pub use host_worker::HostWorker;
pub use leaving::hand_on;
pub use paths::ALL_PATHS;
pub use ram_side::RamSide;
pub use replies::{post_reply, tell_statistics};
pub use ring_side::RingSide;
pub use sending::{give_up_on, send_next};
pub use short::Short;
pub use taking::take_next;
pub use turn_end::TurnEnd;
pub use worker::CommWorker;
