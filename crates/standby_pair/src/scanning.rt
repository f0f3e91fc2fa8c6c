//! Scans on a bench, with the frames that are served in them.
ghost use Rattle.std.specs.Prelude.{◌≡◌, ◌+◌, ◌<◌, ◌≤◌, ◌^◌, ◌++◌, ◌==◌, ◌||◌, length, not, take};
ghost use Rattle.std.specs.Prelude.{IfOk, OnOk};
ghost use Rattle.std.specs.List.{list_any};
ghost use Rattle.panel_session.specs.Asked.{entries_to_come, frames_heard, replies_to_come};
ghost use Rattle.panel_session.specs.Serving.{request_count};
ghost use Rattle.standby_pair.specs.Course.{ends_a_scan, parts_of, scans_to_come, LeavesScans};
ghost use Rattle.standby_pair.specs.Kept.{frames_in, parts_history, scan_parts, HasNumbersFor};
ghost use Rattle.standby_pair.specs.Kept.{MadeScan};

use controller_core::Entry;
use panel_session::{Bench, BenchEnd, PortFrame, serve_all};
use plant_types::{Copied, List};
use std::alloc::{AllocError, Global};

/// One scan: its panel line, its entries with those of the frames that were served in it, and the
/// replies to these.
#[derive(Drop)]
pub(crate) struct ScanMade {
    pub(crate) line: Vec<u8>,
    pub(crate) entries: List<Entry>,
    pub(crate) replies: Vec<u8>,
}

/// Copies of entries.
pub(crate) fn copies(alloc: Global, entries: &[Entry]) -> Result<List<Entry>, AllocError>
    ensures { IfOk result (λ list. list ≡ entries.now) }
{
    let mut list = List::new(alloc);
    for entry in entries {
        list.push(entry.copied(alloc)?)?;
    }
    Ok(list)
}

/// Serves frames one after another, and answers the replies.
fn serve_frames(
    alloc: Global,
    node: u8,
    bench: &mut Bench,
    frames: &[PortFrame],
) -> Result<Vec<u8>, AllocError>
    requires node { bench.old.fixed.plan.node ≡ node }
    requires few { request_count bench.old.history + length frames.now < 2 ^ 32 }
    ensures fixed { OnOk result (bench.new.fixed ≡ bench.old.fixed) }
    ensures history { OnOk result (bench.new.history ≡ bench.old.history
        ++ entries_to_come bench.old frames.now) }
    ensures replies { IfOk result (λ replies. replies.items ≡ replies_to_come bench.old frames.now) }
{
    let mut replies = Vec::new(alloc);
    serve_all(alloc, node, bench, frames, &mut replies)?;
    Ok(replies)
}

/// Whether an entry ends its scan.
fn ends_a_scan(entry: &Entry) -> bool
    ensures { result ≡ ends_a_scan entry.now }
{
    matches!(entry, Entry::End | Entry::Fail | Entry::Dark)
}

/// Whether one of these entries ends its scan.
fn has_end(entries: &[Entry]) -> bool
    ensures { result ≡ list_any ends_a_scan entries.now }
{
    entries.iter().any(|entry| ends_a_scan(entry))
}

/// Whether a scan with these entries, behind which so many are left, is the last: the controller
/// stopped in it where none of them ends it.
fn is_last(left: u32, entries: &[Entry]) -> bool
    ensures { result ≡ ((left == 0) || not (list_any ends_a_scan entries.now)) }
{
    left == 0 || !has_end(entries)
}

/// The frames that are served in a scan: the next one, or all that are left in the last.
fn frames_in(is_last: bool, frames: &[PortFrame]) -> &[PortFrame]
    ensures { result.now ≡ frames_in is_last frames.now }
{
    if is_last {
        frames
    } else {
        &frames[..frames.len().min(1)]
    }
}

/// Makes the next scan on a bench, behind which so many are left, and serves the frames that belong
/// to it: the next one, or all that are left where it is the last. Nothing where no scan is left.
fn make_scan(
    alloc: Global,
    node: u8,
    bench: &mut Bench,
    left: u32,
    frames: &[PortFrame],
) -> Result<Option<ScanMade>, AllocError>
    requires node { bench.old.fixed.plan.node ≡ node }
    requires leaves { LeavesScans bench.old (left + 1) }
    requires few { HasNumbersFor bench.old frames.now }
    ensures { IfOk result (λ made. MadeScan bench.old left (frames_heard frames.now) made bench.new) }
{
    let before = bench.history().len();
    let BenchEnd::Done = bench.scan()? else {
        return Ok(None);
    };
    let line = bench.line()?;
    let last = is_last(left, &bench.history()[before..]);
    let replies = serve_frames(alloc, node, bench, frames_in(last, frames))?;
    let entries = copies(alloc, &bench.history()[before..])?;
    Ok(Some(ScanMade {
        line,
        entries,
        replies,
    }))
}

/// Makes the next scans on a bench: so many, of those that are left, or fewer where it stops.
pub(crate) fn make_scans(
    alloc: Global,
    node: u8,
    bench: &mut Bench,
    many: u32,
    left: u32,
    frames: &[PortFrame],
) -> Result<Vec<ScanMade>, AllocError>
    requires node { bench.old.fixed.plan.node ≡ node }
    requires leaves { LeavesScans bench.old left }
    requires few { HasNumbersFor bench.old frames.now }
    requires many { many ≤ left }
    ensures parts { IfOk result (λ made. scan_parts made.items ≡
        take many (parts_of (scans_to_come bench.old left (frames_heard frames.now)))) }
    ensures fixed { OnOk result (bench.new.fixed ≡ bench.old.fixed) }
    ensures history { IfOk result (λ made. bench.new.history ≡ bench.old.history
        ++ parts_history (scan_parts made.items)) }
{
    let mut made = Vec::new(alloc);
    let mut rest = frames;
    for place in 0..many {
        let Some(scan) = make_scan(alloc, node, bench, left - 1 - place, rest)? else {
            return Ok(made);
        };
        made.push(scan)?;
        rest = &rest[rest.len().min(1)..];
    }
    Ok(made)
}
