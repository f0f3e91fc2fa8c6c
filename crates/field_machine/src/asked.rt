//! What must never be.
use plant_types::Ref;

/// What a controller is asked never to come to. This project's own.
#[derive(Clone, Copy, Debug, PartialEq, Eq)]
pub enum Asked {
    /// This coil or input is on at the end of a scan.
    On(Ref),
    /// It has stopped.
    Stopped,
}
