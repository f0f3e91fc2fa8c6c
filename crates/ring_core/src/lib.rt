//! The Modbus Plus token ring as a machine: who holds the token, and what becomes of each frame.
#![tactic(auto)]

mod accepted;
mod arrival;
mod bare;
mod conditions;
mod copied;
mod counting;
mod entry;
mod frame;
mod global;
mod history;
mod laws;
mod members;
mod node;
mod opening;
mod path;
mod refusal;
mod ring;
mod stats_request;
mod status;

pub use bare::BareRing;
pub use conditions::{is_from, is_net, is_path};
pub use entry::{Heard, LeaveCause, LocalOp, RingEntry};
pub use frame::{Frame, FrameKind};
pub use laws::{
    holder_is_member, holders_keep, membership_stays, only_bridges_stays, onward_to_bridges,
    outsiders_keep,
};
pub use mstr_block::{CallId, MstrResult, NOBODY_THERE};
pub use refusal::RingNo;
pub use ring::Ring;
pub use stats_request::{CLEAR_STATISTICS, GET_STATISTICS, is_stats};
pub use status::NodeStatus;
