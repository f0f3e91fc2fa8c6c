//! A primary on the bench, its standby, and the switch from one to the other.
ghost use Rattle.std.specs.Prelude.{◌≡◌, ◌<◌, ◌≤◌, ◌^◌, ◌++◌, length, take, IfOk, OnOk};
ghost use Rattle.std.specs.List.{flat_map};
ghost use Rattle.controller_core.specs.Controller.{at_start, fixed_with, IsLegal};
ghost use Rattle.controller_core.specs.Machine.{IsRunnable};
ghost use Rattle.panel_session.specs.Serving.{frames_for};
ghost use Rattle.panel_session.specs.Session.{bench_history};
ghost use Rattle.standby_pair.specs.Course.{parts_of, scans_to_come};
ghost use Rattle.standby_pair.specs.Kept.{parts_history, replies_between};
ghost use Rattle.panel_session.specs.Asked.{frames_heard};
ghost use Rattle.standby_pair.specs.Kept.{scan_parts};
ghost use Rattle.standby_pair.specs.Pair.{pair_text, switch_line, RepliesComeOnceOrTwice};
ghost use Rattle.standby_pair.specs.Pair.{SwitchesInTime};

use crate::frames::frames_behind;
use crate::scanning::{ScanMade, copies, make_scans};
use crate::sending::Link;
use crate::words::Words8;
use controller_core::Entry;
use hot_standby::Standby;
use panel_session::{Bench, PortFrame, frames_for};
use plant_types::{ControllerPlan, Fate, List};
use std::alloc::{AllocError, Global};
use std::fmt::Write;

/// What a primary and its standby came to.
pub struct PairEnd {
    /// What both wrote.
    pub text: Words8,
    /// The history of the standby that went on.
    pub history: List<Entry>,
}

impl Drop for PairEnd {
    fn drop(self) {
        let PairEnd {
            text: _,
            history: _,
        } = self;
    }
}

impl PairEnd {
    /// The text alone; takes no memory.
    pub fn into_text(self) -> Words8
        ensures { result ≡ self.text }
    {
        let PairEnd { text, history: _ } = self;
        text
    }
}

/// The line of the switch.
fn switch_line(alloc: Global, held: u32) -> Result<Vec<u8>, AllocError>
    ensures { IfOk result (λ line. line.items ≡ switch_line held) }
{
    let mut text = String::new(alloc);
    write!(text, "SWITCH {held}\n")?;
    Ok(text.into_bytes())
}

/// Adds the replies of some scans.
fn push_replies(text: &mut Vec<u8>, scans: &[ScanMade]) -> Result<(), AllocError>
    ensures { OnOk result (text.new.items ≡ text.old.items
        ++ flat_map (λ part. part.replies) (scan_parts scans.now)) }
{
    for scan in scans {
        text.extend_from_slice(&scan.replies)?;
    }
    Ok(())
}

/// Adds the replies of the scans from one place to another.
fn push_between(
    text: &mut Vec<u8>,
    scans: &[ScanMade],
    from: usize,
    to: usize,
) -> Result<(), AllocError>
    requires from { from ≤ to }
    requires to { to ≤ length scans.now }
    ensures { OnOk result (text.new.items ≡ text.old.items
        ++ replies_between (scan_parts scans.now) from to) }
{
    push_replies(text, &scans[from..to])?;
    Ok(())
}

/// Adds the panel lines of some scans, and right behind each its replies.
fn push_scans(text: &mut Vec<u8>, scans: &[ScanMade]) -> Result<(), AllocError>
    ensures { OnOk result (text.new.items ≡ text.old.items
        ++ flat_map (λ part. part.line ++ part.replies) (scan_parts scans.now)) }
{
    for scan in scans {
        text.extend_from_slice(&scan.line)?;
        text.extend_from_slice(&scan.replies)?;
    }
    Ok(())
}

/// The scans that a primary makes until it fails.
fn primary_scans(
    alloc: Global,
    plan: &ControllerPlan,
    scan_time: u32,
    watchdog: u32,
    frames: &[PortFrame],
    fail: u32,
    scans: u32,
) -> Result<Vec<ScanMade>, AllocError>
    requires runs { IsRunnable (fixed_with plan.now scan_time watchdog scans) }
    requires fails { fail ≤ scans }
    requires few { length frames.now < 2 ^ 32 }
    ensures parts { IfOk result (λ made. scan_parts made.items ≡ take fail (parts_of
        (scans_to_come (at_start (fixed_with plan.now scan_time watchdog scans)) scans
        (frames_heard frames.now)))) }
    ensures legal { IfOk result (λ made. IsLegal (fixed_with plan.now scan_time watchdog scans)
        (parts_history (scan_parts made.items))) }
{
    let mut bench = Bench::new(alloc, plan, scan_time, watchdog, scans)?;
    let made = make_scans(alloc, plan.node, &mut bench, fail, scans, frames)?;
    let _ = bench.history();
    Ok(made)
}

/// A primary for the bytes of an operator's port, which sends each of its scans to a standby and
/// fails behind one, and the standby that goes on. The fates of what is sent are taken in turn,
/// again and again.
pub fn pair_run(
    alloc: Global,
    plan: &ControllerPlan,
    scan_time: u32,
    watchdog: u32,
    fates: &[Fate],
    stream: &[u8],
    fail: u32,
    scans: u32,
) -> Result<PairEnd, AllocError>
    requires runs { IsRunnable (fixed_with plan.now scan_time watchdog scans) }
    requires fates { 1 ≤ length fates.now }
    requires fails { (1 ≤ fail) × (fail ≤ scans) }
    requires short { length stream.now < 2 ^ 32 }
    ensures text { IfOk result (λ end. end.text ≡ pair_text
        (fixed_with plan.now scan_time watchdog scans) fates.now stream.now fail) }
    ensures history { IfOk result (λ end. end.history ≡
        bench_history (fixed_with plan.now scan_time watchdog scans) stream.now) }
    ensures legal { IfOk result (λ end.
        IsLegal (fixed_with plan.now scan_time watchdog scans) end.history) }
    ensures in_time { IfOk result (λ end. SwitchesInTime
        (fixed_with plan.now scan_time watchdog scans) fates.now stream.now fail) }
    ensures replies { IfOk result (λ end. RepliesComeOnceOrTwice
        (fixed_with plan.now scan_time watchdog scans) fates.now stream.now fail) }
{
    let frames = frames_for(alloc, plan.node, stream)?;
    let made = primary_scans(alloc, plan, scan_time, watchdog, &frames, fail, scans)?;
    let standby = Standby::new(alloc, plan, scan_time, watchdog, scans)?;
    let mut link = Link::of(standby);
    let mut text = Vec::new(alloc);
    link.send_all(alloc, fates, &made, &mut text)?;
    let (known, held) = (link.known as usize, link.standby.scans());
    text.extend_from_slice(&switch_line(alloc, held)?)?;
    push_between(&mut text, &made, known, held as usize)?;
    let mut bench = link.into_standby().into_bench();
    let rest = frames_behind(&frames, held as usize);
    let left = scans - held;
    let later = make_scans(alloc, plan.node, &mut bench, left, left, rest)?;
    push_scans(&mut text, &later)?;
    let history = copies(alloc, bench.history())?;
    Ok(PairEnd {
        text: Words8::of(text),
        history,
    })
}
