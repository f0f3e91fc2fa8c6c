//! A law of nodes and their rings. This project's own.
ghost use Rattle.net_laws.specs.Rings.{OwnEntriesAreOnOwnRing};

/// What a node noted on any ring is what it noted on the ring of its network.
pub fn own_entries_are_on_own_ring()
    ensures { OwnEntriesAreOnOwnRing }
{}
