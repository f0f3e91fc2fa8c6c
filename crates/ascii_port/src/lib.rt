//! Modbus frames in ASCII, as they come to a port byte by byte, and as they are written.
#![tactic(auto)]

mod digits;
mod gathered;
mod laws;
mod port;
mod writing;

pub use laws::one_more_frame;
pub use port::{Fed, Port};
pub use writing::frame_text;
