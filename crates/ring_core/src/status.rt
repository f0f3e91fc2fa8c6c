//! Whether a node is on the ring.
ghost use Rattle.std.specs.Prelude.{◌≡◌};
ghost use Rattle.ring_core.specs.Machine.{first_status, is_in, is_in_or_asking, admitted_status};

/// Where a node stands toward the ring. This project's own.
#[derive(Clone, Copy, Debug, Drop, PartialEq, Eq)]
pub enum NodeStatus {
    /// It is a member, and is handed the token.
    In,
    /// It left as its power failed, and may ask to come in again.
    Away,
    /// It has asked, and comes in as the token goes on.
    Asking,
    /// It left for good, or was no member ever.
    Gone,
}

impl NodeStatus {
    /// That of a node at first.
    pub(crate) fn at_first(here: bool) -> NodeStatus
        ensures { result ≡ first_status here }
    {
        if here {
            NodeStatus::In
        } else {
            NodeStatus::Gone
        }
    }

    /// Whether it is that of a member.
    pub(crate) fn is_in(self) -> bool
        ensures { result ≡ is_in self }
    {
        match self {
            NodeStatus::In => true,
            NodeStatus::Away | NodeStatus::Asking | NodeStatus::Gone => false,
        }
    }

    /// Whether it is that of a member, or of one that asks to be.
    pub(crate) fn is_in_or_asking(self) -> bool
        ensures { result ≡ is_in_or_asking self }
    {
        match self {
            NodeStatus::In | NodeStatus::Asking => true,
            NodeStatus::Away | NodeStatus::Gone => false,
        }
    }

    // The status as the token goes on: who asks comes in.
    pub(crate) fn admitted(self) -> NodeStatus
        ensures { result ≡ admitted_status self }
    {
        match self {
            NodeStatus::Asking => NodeStatus::In,
            other => other,
        }
    }
}
