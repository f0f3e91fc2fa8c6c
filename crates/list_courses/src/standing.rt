//! Where a node stands toward its ring, by its own entries.
ghost use Rattle.std.specs.Prelude.{◌≡◌};
ghost use Rattle.net_laws.specs.Standing.{status_by, status_left, status_next};
ghost use Rattle.station_laws.specs.Picked.{AreWithin, picked};

use ring_core::{LeaveCause, NodeStatus, RingEntry};

/// Where a node stands that left.
fn status_left(cause: LeaveCause) -> NodeStatus
    ensures { result ≡ status_left cause }
{
    match cause {
        LeaveCause::Ended | LeaveCause::Spent => NodeStatus::Gone,
        LeaveCause::Down(_) => NodeStatus::Away,
    }
}

/// Where a node stands after one entry more of its own. One that asks to come in counts as in.
fn status_next(status: NodeStatus, entry: &RingEntry) -> NodeStatus
    ensures { result ≡ status_next status entry.now }
{
    match entry {
        RingEntry::Leave { cause, .. } => status_left(*cause),
        RingEntry::Join { .. } => NodeStatus::In,
        _ => status,
    }
}

/// Where a member stands after all its entries.
pub fn status_by(ring: &[RingEntry], places: &[usize]) -> NodeStatus
    requires { AreWithin ring.now places.now }
    ensures { result ≡ status_by (picked ring.now places.now) }
{
    let mut status = NodeStatus::In;
    for place in places {
        status = status_next(status, &ring[*place]);
    }
    status
}
