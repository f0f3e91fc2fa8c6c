//! Following a history entry by entry.
ghost use Rattle.std.specs.Prelude.{◌≡◌, ◌↔◌, true, IfOk, OnErr};
ghost use Rattle.host_port.specs.Following.{host_followed, MayComeNext, HostMayFollow};
ghost use Rattle.host_port.specs.Legal.{refusal_to};

use crate::entry::HostEntry;
use crate::host::{Host, refusal};
use plant_types::{Copied, Pdu};
use std::alloc::{AllocError, Global};

/// Whether a reply is the one that a host gives to a request.
fn is_refusal(alloc: Global, request: &Pdu, reply: &Pdu) -> Result<bool, AllocError>
    ensures { IfOk result (λ same. (same ≡ true) ↔ (reply.now ≡ refusal_to request.now)) }
{
    let due = refusal(alloc, request)?;
    Ok(due.bytes() == reply.bytes())
}

impl Host {
    /// Whether an entry may come next, by what stands there.
    fn may_follow(&self, entry: &HostEntry) -> Result<bool, AllocError>
        ensures { IfOk result (λ may. (may ≡ true) ↔ MayComeNext self.now entry.now) }
    {
        match entry {
            HostEntry::Ask { id, route, pdu } => Ok(self.is_next(*id, *route, pdu)),
            HostEntry::Answer { id, .. } => Ok(self.is_out(*id)),
            HostEntry::Served { request, reply, .. } => is_refusal(self.alloc(), request, reply),
        }
    }

    /// Follows an entry, and answers whether it may come next. Where it may not, the history with
    /// it isn't legal, and the host stays as it is.
    pub fn follow(&mut self, entry: &HostEntry) -> Result<bool, AllocError>
        ensures state { IfOk result (λ may. self.new ≡ host_followed self.old entry.now may) }
        ensures legal { IfOk result (λ may. (may ≡ true) ↔ HostMayFollow self.old entry.now) }
        ensures err { OnErr result (self.new ≡ self.old) }
    {
        if !self.may_follow(entry)? {
            return Ok(false);
        }
        let entry = entry.copied(self.alloc())?;
        self.note(entry)?;
        Ok(true)
    }
}
