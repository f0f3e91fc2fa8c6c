//! A whole session: all scans, with the frames of a stream served between them.
ghost use Rattle.std.specs.Prelude.{◌≡◌, ◌+◌, ◌<◌, ◌≤◌, ◌^◌, ◌++◌, length, map, IfOk, OnOk};
ghost use Rattle.controller_core.specs.Controller.{fixed_with, state_of, IsLegal};
ghost use Rattle.controller_core.specs.Machine.{IsRunnable};
ghost use Rattle.panel_session.specs.Asked.{entries_to_come, frame_asked, replies_to_come};
ghost use Rattle.panel_session.specs.Serving.{after_request, frame_request, numbered_frames};
ghost use Rattle.panel_session.specs.Serving.{reply_text, request_count, requests_taken};
ghost use Rattle.panel_session.specs.Session.{bench_history, bench_text};

use crate::asked::{PortFrame, frames_for};
use crate::bench::{Bench, BenchEnd};
use ascii_port::frame_text;
use controller_core::Entry;
use plant_types::{ControllerPlan, List};
use std::alloc::{AllocError, Global};

/// What a session came to.
#[derive(Drop)]
pub struct Session {
    /// Per scan the panel line, and then the replies to the frames that were served in it.
    pub text: Vec<u8>,
    pub history: List<Entry>,
}

/// Serves a frame, and adds the reply to one with the node's own address.
fn serve_frame(
    alloc: Global,
    node: u8,
    bench: &mut Bench,
    asked: &PortFrame,
    text: &mut Vec<u8>,
) -> Result<(), AllocError>
    requires { request_count bench.old.history + 1 < 2 ^ 32 }
    ensures bench { OnOk result (bench.new ≡ after_request bench.old asked.now.pdu) }
    ensures text { OnOk result (text.new.items ≡ text.old.items
        ++ reply_text node (state_of bench.old) (frame_asked asked.now)) }
{
    let reply = bench.serve(&asked.pdu)?;
    if asked.address != node {
        return Ok(());
    }
    if let Some(reply) = reply {
        text.extend_from_slice(&frame_text(alloc, node, &reply)?)?;
    }
    Ok(())
}

/// Serves frames one after another, and adds the replies to those with the node's own address. Where
/// memory is refused some of them may have been served.
pub fn serve_all(
    alloc: Global,
    node: u8,
    bench: &mut Bench,
    asked: &[PortFrame],
    text: &mut Vec<u8>,
) -> Result<(), AllocError>
    requires node { bench.old.fixed.plan.node ≡ node }
    requires few { request_count bench.old.history + length asked.now < 2 ^ 32 }
    ensures fixed { OnOk result (bench.new.fixed ≡ bench.old.fixed) }
    ensures history { OnOk result (bench.new.history ≡ bench.old.history
        ++ entries_to_come bench.old asked.now) }
    ensures text { OnOk result (text.new.items ≡ text.old.items
        ++ replies_to_come bench.old asked.now) }
{
    for frame in asked {
        serve_frame(alloc, node, bench, frame, text)?;
    }
    Ok(())
}

/// The session of a controller alone on a bench, for the bytes of an operator's port.
pub fn run_session(
    alloc: Global,
    plan: &ControllerPlan,
    scan_time: u32,
    watchdog: u32,
    scans: u32,
    stream: &[u8],
) -> Result<Session, AllocError>
    requires runs { IsRunnable (fixed_with plan.now scan_time watchdog scans) }
    requires some { 1 ≤ scans }
    requires short { length stream.now < 2 ^ 32 }
    ensures text { IfOk result (λ session. session.text.items ≡
        bench_text (fixed_with plan.now scan_time watchdog scans) stream.now) }
    ensures history { IfOk result (λ session. session.history ≡
        bench_history (fixed_with plan.now scan_time watchdog scans) stream.now) }
    ensures legal { IfOk result (λ session.
        IsLegal (fixed_with plan.now scan_time watchdog scans) session.history) }
    ensures served { IfOk result (λ session. requests_taken session.history ≡
        map frame_request (numbered_frames plan.now.node stream.now)) }
{
    let asked = frames_for(alloc, plan.node, stream)?;
    let mut bench = Bench::new(alloc, plan, scan_time, watchdog, scans)?;
    let mut text = Vec::new(alloc);
    let mut left = asked.as_slice();
    while let BenchEnd::Done = bench.scan()? {
        text.extend_from_slice(&bench.line()?)?;
        let (next, rest) = left.split_at(left.len().min(1));
        serve_all(alloc, plan.node, &mut bench, next, &mut text)?;
        left = rest;
    }
    serve_all(alloc, plan.node, &mut bench, left, &mut text)?;
    let history = bench.into_history();
    Ok(Session { text, history })
}
