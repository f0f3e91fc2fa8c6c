//! One scan's part, which a controller follows.
ghost use Rattle.std.specs.Prelude.{◌≡◌, ◌↔◌, ◌≤◌, ◌^◌, false, true, IfOk};
ghost use Rattle.controller_core.specs.Controller.{grown, state_of};
ghost use Rattle.controller_core.specs.Following.{followed};
ghost use Rattle.whole_scan.specs.Scans.{IsBetweenScans};
ghost use Rattle.hot_standby.specs.Part.{begins_scan, scans_made, HasTaken, MayComeAt};
ghost use Rattle.hot_standby.specs.Part.{MayFollowAll};

use controller_core::{Controller, Entry};
use std::alloc::AllocError;

/// Whether an entry begins a scan.
fn begins_scan(entry: &Entry) -> bool
    ensures { result ≡ begins_scan entry.now }
{
    matches!(entry, Entry::Begin | Entry::Dark)
}

/// The scans that a controller has behind it.
fn scans_made(controller: &Controller) -> u64
    ensures made { result ≡ scans_made (state_of controller.now) }
    ensures fits { result ≤ 2 ^ 32 }
{
    let stopped = controller.stop_code() != 0;
    u64::from(controller.scans_gone()) + u64::from(stopped)
}

/// Follows the entry at a place of a scan's part, and answers whether it may come there: the first
/// begins a scan, and no other does.
fn follow_at(controller: &mut Controller, place: usize, entry: &Entry) -> Result<bool, AllocError>
    ensures fixed { controller.new.fixed ≡ controller.old.fixed }
    ensures may { IfOk result (λ same.
        (same ≡ true) ↔ MayComeAt controller.old place entry.now) }
    ensures state { IfOk result (λ same. same ≡ true →
        controller.new ≡ followed controller.old entry.now true) }
    ensures takes { IfOk result (λ same. same ≡ true →
        HasTaken controller.old entry.now controller.new) }
{
    if begins_scan(entry) != (place == 0) {
        return Ok(false);
    }
    controller.follow(entry)
}

/// Follows entries, and answers whether they are the next scan's part. Where the answer is false,
/// some of them may have been followed.
pub(crate) fn follow_part(
    controller: &mut Controller,
    entries: &[Entry],
) -> Result<bool, AllocError>
    requires between { IsBetweenScans controller.old }
    requires rests { controller.old.reserved ≡ false }
    ensures fixed { controller.new.fixed ≡ controller.old.fixed }
    ensures part { IfOk result (λ whole.
        (whole ≡ true) ↔ MayFollowAll controller.old entries.now) }
    ensures made { IfOk result (λ whole. whole ≡ true →
        controller.new ≡ grown controller.old entries.now false) }
    ensures between { IfOk result (λ whole. whole ≡ true → IsBetweenScans controller.new) }
{
    let _ = controller.history();
    let made = scans_made(controller);
    for (place, entry) in entries.iter().enumerate() {
        if !follow_at(controller, place, entry)? {
            return Ok(false);
        }
    }
    Ok(scans_made(controller) == made + 1)
}
