//! Following a history entry by entry.
ghost use Rattle.std.specs.Prelude.{◌≡◌, ◌↔◌, true, IfOk, OnErr};
ghost use Rattle.bridge_relay.specs.Machine.{side_of};
ghost use Rattle.bridge_relay.specs.Legal.{FitsBridge, IsEnd, IsBridgeStep};
ghost use Rattle.bridge_relay.specs.Following.{bridge_followed, BridgeMayFollow};

use crate::bridge::Bridge;
use crate::entry::BridgeEntry;
use plant_types::Copied;
use std::alloc::AllocError;

impl Bridge {
    /// Whether an entry of one of the two ends fits those before it.
    fn fits(&self, entry: &BridgeEntry) -> bool
        requires { IsEnd self.now.plan (side_of entry.now) }
        ensures { (result ≡ true) ↔ FitsBridge self.now.plan self.now.history entry.now }
    {
        match entry {
            BridgeEntry::Accept { .. } => true,
            BridgeEntry::Forward {
                side,
                old,
                id,
                route,
                request,
            } => self.is_due_forward(*side, *old, *id, *route, request),
            BridgeEntry::Finish { side, id, .. } => self.is_out(*side, *id),
            BridgeEntry::Back { side, id, reply } => self.is_due_back(*side, *id, reply),
            BridgeEntry::Gone { side } => self.has_none_out(*side),
        }
    }

    /// Whether an entry may come next.
    fn may_follow(&self, entry: &BridgeEntry) -> bool
        ensures { (result ≡ true) ↔ IsBridgeStep self.now.plan self.now.history entry.now }
    {
        self.is_open(entry.side()) && self.fits(entry)
    }

    /// Follows an entry, and answers whether it may come next. Where it may not, the history with
    /// it isn't legal, and the bridge stays as it is.
    pub fn follow(&mut self, entry: &BridgeEntry) -> Result<bool, AllocError>
        ensures state { IfOk result (λ may. self.new ≡ bridge_followed self.old entry.now may) }
        ensures legal { IfOk result (λ may. (may ≡ true) ↔ BridgeMayFollow self.old entry.now) }
        ensures err { OnErr result (self.new ≡ self.old) }
    {
        if !self.may_follow(entry) {
            return Ok(false);
        }
        let entry = entry.copied(self.alloc())?;
        self.note(entry)?;
        Ok(true)
    }
}
