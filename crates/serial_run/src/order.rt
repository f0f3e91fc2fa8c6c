//! The turns of stations.

/// What a station does at once, in the order of a run. This project's own.
#[derive(Clone, Copy, Debug, PartialEq, Eq)]
pub enum Turn {
    /// The controller of this node makes its due step.
    Step(u8),
    /// The station of the node that holds the token of the network of this number makes its hold
    /// turn.
    Hold(u8),
    /// The controller of this node, which is out of the ring for good, ends the calls that it still
    /// starts.
    Visit(u8),
    /// The controller of this node, which is away, asks to come in again where it has power.
    Away(u8),
}
