//! A host's hold turn.
ghost use Rattle.std.specs.Prelude.{◌≡◌, ◌<◌, min, true, false, [], ◌∷◌, OnOk, OnErr, IfOk};
ghost use Rattle.ring_core.specs.Legal.{IsLegalRing, IsPath};
ghost use Rattle.ring_core.specs.Statistics.{is_for_stats};
ghost use Rattle.host_port.specs.Legal.{IsHostHistory};
ghost use Rattle.comm_port.specs.Giving.{is_chosen};
ghost use Rattle.comm_port.specs.HostTurns.{after_turn, CountsPasses, AreRecent, hold_of};
ghost use Rattle.comm_port.specs.HostTurns.{looked_at};
ghost use Rattle.comm_port.specs.HostSteps.{AskedAllOver, AskedNextOver, EndsHostOver, GivesUpBy};
ghost use Rattle.comm_port.specs.HostSteps.{GivesUpIf, GivesUpWhich, HoldsHostBy, HoldsHostOver};
ghost use Rattle.comm_port.specs.HostSteps.{HostMeets, HostStep, HostTakingAt, HostTiesAfter};
ghost use Rattle.comm_port.specs.HostSteps.{HostTiesAt, HostTurningAfter, HostTurningAt, PassedAt};
ghost use Rattle.comm_port.specs.HostSteps.{SendsOutOver, SendsOver, ServesInboxOver};
ghost use Rattle.comm_port.specs.RingSteps.{HasLeftAfter, HasLeftAt, HoldsAfter, HoldsAt};
ghost use Rattle.comm_port.specs.RingSteps.{IsHereAfter, IsNoBridgeAt, KeepsInboxOver, SendsFewer};
ghost use Rattle.comm_port.specs.RingSteps.{StaysAway, node_after, node_at, outbox_after, IsHereAt};
ghost use Rattle.comm_port.specs.RingSteps.{RestsAt, SendsNoMore};

use crate::leaving::hand_on;
use crate::paths::ALL_PATHS;
use crate::replies::{post_reply, tell_statistics};
use crate::ring_side::RingSide;
use crate::sending::{give_up_on, send_next};
use crate::short::Short;
use crate::taking::take_next;
use host_port::{Host, HostResult};
use mstr_block::CallId;
use plant_types::{NETWORK_PATHS, NetPlan, PATH_PLACES};
use ring_core::{Frame, FrameKind, Heard};
use std::alloc::{AllocError, Global};
use std::marker::Model;

/// Ends the call that a Reply is to.
fn end_call<R: RingSide>(node: u8, reply: Frame, host: &mut Host, ring: &R) -> Result<(), Short>
    requires taking { HostTakingAt R.RingSide node reply host.old ring.now }
    requires kind { reply.kind ≡ FrameKind.Reply }
    ensures turning { OnOk result (HostTurningAt R.RingSide node host.new ring.now) }
    ensures served { OnOk result
        (HostMeets R.RingSide node reply host.old host.new ring.now ring.now) }
    ensures step { HostStep R.RingSide node host.old host.new ring.now ring.now }
{
    host.answer(reply.id, HostResult::Reply(reply.pdu))?;
    Ok(())
}

/// Has the host refuse a Request, and posts its Reply.
fn answer_request<R: RingSide>(
    node: u8,
    request: &Frame,
    host: &mut Host,
    ring: &mut R,
) -> Result<(), Short>
    requires taking { HostTakingAt R.RingSide node request.now host.old ring.old }
    requires kind { request.now.kind ≡ FrameKind.Request }
    requires plain { is_for_stats request.now ≡ false }
    ensures turning { OnOk result (HostTurningAfter R.RingSide node host.new ring.old ring.new) }
    ensures kept { OnOk result (KeepsInboxOver R.RingSide node ring.old ring.new) }
    ensures served { OnOk result
        (HostMeets R.RingSide node request.now host.old host.new ring.old ring.new) }
    ensures step { HostStep R.RingSide node host.old host.new ring.old ring.new }
{
    let reply = host.serve(request.id, &request.pdu)?;
    post_reply(node, request.id, reply, ring)?;
    Ok(())
}

/// Answers a Request for statistics, of which the host knows nothing.
fn answer_port<R: RingSide>(
    alloc: Global,
    node: u8,
    request: &Frame,
    host: &Host,
    ring: &mut R,
) -> Result<(), Short>
    requires taking { HostTakingAt R.RingSide node request.now host.now ring.old }
    requires kind { request.now.kind ≡ FrameKind.Request }
    requires stats { is_for_stats request.now ≡ true }
    ensures turning { OnOk result (HostTurningAfter R.RingSide node host.now ring.old ring.new) }
    ensures kept { OnOk result (KeepsInboxOver R.RingSide node ring.old ring.new) }
    ensures served { OnOk result
        (HostMeets R.RingSide node request.now host.now host.now ring.old ring.new) }
    ensures step { HostStep R.RingSide node host.now host.now ring.old ring.new }
{
    tell_statistics(alloc, node, request, ring)?;
    Ok(())
}

/// What is due to a frame that was taken.
fn serve<R: RingSide>(
    alloc: Global,
    node: u8,
    frame: Frame,
    host: &mut Host,
    ring: &mut R,
) -> Result<(), Short>
    requires taking { HostTakingAt R.RingSide node frame host.old ring.old }
    ensures turning { OnOk result (HostTurningAfter R.RingSide node host.new ring.old ring.new) }
    ensures kept { OnOk result (KeepsInboxOver R.RingSide node ring.old ring.new) }
    ensures served { OnOk result
        (HostMeets R.RingSide node frame host.old host.new ring.old ring.new) }
    ensures step { HostStep R.RingSide node host.old host.new ring.old ring.new }
{
    match frame.kind {
        FrameKind::Reply => end_call(node, frame, host, ring),
        FrameKind::Request => {
            if frame.is_for_stats() {
                answer_port(alloc, node, &frame, host, ring)
            } else {
                answer_request(node, &frame, host, ring)
            }
        }
    }
}

/// Takes until the inbox is empty. A Request is answered, a Reply ends its call.
fn serve_inbox<R: RingSide>(
    alloc: Global,
    node: u8,
    host: &mut Host,
    ring: &mut R,
) -> Result<(), Short>
    requires turning { HostTurningAt R.RingSide node host.old ring.old }
    requires holds { HoldsAt R.RingSide node ring.old }
    requires no_bridge { IsNoBridgeAt R.RingSide node ring.old }
    ensures turning { OnOk result (HostTurningAfter R.RingSide node host.new ring.old ring.new) }
    ensures holds { OnOk result (HoldsAfter R.RingSide node ring.old ring.new) }
    ensures served { OnOk result
        (ServesInboxOver R.RingSide node host.old host.new ring.old ring.new) }
    ensures step { HostStep R.RingSide node host.old host.new ring.old ring.new }
{
    while let Some(frame) = take_next(node, ring)? {
        serve(alloc, node, frame, host, ring)?;
    }
    Ok(())
}

/// Makes the next request that is due by a hold, and posts it; the path that it takes, or none
/// where nothing is due or no path is free.
fn ask_next<R: RingSide>(
    node: u8,
    hold: u32,
    host: &mut Host,
    ring: &mut R,
) -> Result<Option<u8>, Short>
    requires turning { HostTurningAt R.RingSide node host.old ring.old }
    ensures turning { OnOk result (HostTurningAfter R.RingSide node host.new ring.old ring.new) }
    ensures kept { OnOk result (KeepsInboxOver R.RingSide node ring.old ring.new) }
    ensures asked { IfOk result
        (AskedNextOver R.RingSide node hold host.old host.new ring.old ring.new) }
    ensures step { HostStep R.RingSide node host.old host.new ring.old ring.new }
{
    let Some(frame) = host.ask(hold)? else {
        return Ok(None);
    };
    let path = frame.id.path;
    match ring.post(node, frame) {
        Ok(()) => Ok(Some(path)),
        Err(why) => Err(Short::of(why)),
    }
}

/// Makes all requests that are due by a hold, as long as a path is free; on which paths.
fn ask_all<R: RingSide>(
    node: u8,
    hold: u32,
    host: &mut Host,
    ring: &mut R,
) -> Result<[bool; PATH_PLACES], Short>
    requires turning { HostTurningAt R.RingSide node host.old ring.old }
    requires holds { HoldsAt R.RingSide node ring.old }
    ensures turning { OnOk result (HostTurningAfter R.RingSide node host.new ring.old ring.new) }
    ensures holds { OnOk result (HoldsAfter R.RingSide node ring.old ring.new) }
    ensures asked { IfOk result
        (AskedAllOver R.RingSide node hold host.old host.new ring.old ring.new) }
    ensures step { HostStep R.RingSide node host.old host.new ring.old ring.new }
{
    let mut fresh = [false; PATH_PLACES];
    while let Some(path) = ask_next(node, hold, host, ring)? {
        fresh[usize::from(path)] = true;
    }
    Ok(fresh)
}

/// Gives up the call of a path, where there is one and the ring lets it, and ends it.
fn give_up_path<R: RingSide>(node: u8, path: u8, host: &mut Host, ring: &mut R) -> Result<(), Short>
    requires turning { HostTurningAt R.RingSide node host.old ring.old }
    requires path { IsPath path }
    ensures turning { OnOk result (HostTurningAfter R.RingSide node host.new ring.old ring.new) }
    ensures kept { OnOk result (KeepsInboxOver R.RingSide node ring.old ring.new) }
    ensures less { OnOk result (SendsNoMore R.RingSide node ring.old ring.new) }
    ensures left { OnOk result (StaysAway R.RingSide node ring.old ring.new) }
    ensures gives_up { OnOk result
        (GivesUpBy R.RingSide node (path ∷ []) host.old host.new ring.old ring.new) }
    ensures step { HostStep R.RingSide node host.old host.new ring.old ring.new }
{
    let seq = ring.awaits(node, path);
    if seq == 0 {
        return Ok(());
    }
    let id = CallId { node, path, seq };
    let Some(word) = give_up_on(id, ring)? else {
        return Ok(());
    };
    host.answer(id, HostResult::Bad(word))?;
    Ok(())
}

/// Gives up the call of a path, if the path is to be looked at.
fn give_up_if<R: RingSide>(
    node: u8,
    path: u8,
    wanted: bool,
    host: &mut Host,
    ring: &mut R,
) -> Result<(), Short>
    requires turning { HostTurningAt R.RingSide node host.old ring.old }
    requires path { IsPath path }
    ensures turning { OnOk result (HostTurningAfter R.RingSide node host.new ring.old ring.new) }
    ensures kept { OnOk result (KeepsInboxOver R.RingSide node ring.old ring.new) }
    ensures less { OnOk result (SendsNoMore R.RingSide node ring.old ring.new) }
    ensures left { OnOk result (StaysAway R.RingSide node ring.old ring.new) }
    ensures gives_up { OnOk result
        (GivesUpIf R.RingSide node wanted path host.old host.new ring.old ring.new) }
    ensures step { HostStep R.RingSide node host.old host.new ring.old ring.new }
{
    if wanted {
        give_up_path(node, path, host, ring)
    } else {
        Ok(())
    }
}

/// Gives up the calls of these paths, in rising order, as far as the ring lets it.
fn give_up_where<R: RingSide>(
    node: u8,
    which: [bool; PATH_PLACES],
    host: &mut Host,
    ring: &mut R,
) -> Result<(), Short>
    requires turning { HostTurningAt R.RingSide node host.old ring.old }
    ensures turning { OnOk result (HostTurningAfter R.RingSide node host.new ring.old ring.new) }
    ensures kept { OnOk result (KeepsInboxOver R.RingSide node ring.old ring.new) }
    ensures less { OnOk result (SendsNoMore R.RingSide node ring.old ring.new) }
    ensures left { OnOk result (StaysAway R.RingSide node ring.old ring.new) }
    ensures gives_up { OnOk result
        (GivesUpWhich R.RingSide node which host.old host.new ring.old ring.new) }
    ensures step { HostStep R.RingSide node host.old host.new ring.old ring.new }
{
    for path in NETWORK_PATHS {
        give_up_if(node, path, which[usize::from(path)], host, ring)?;
    }
    Ok(())
}

/// The paths on which a Send may have made a call fail.
fn may_have_failed(heard: Heard, fresh: [bool; PATH_PLACES]) -> [bool; PATH_PLACES]
    ensures { result ≡ looked_at heard fresh }
{
    match heard {
        Heard::Acked => [false; PATH_PLACES],
        Heard::Silent | Heard::Busy => fresh,
    }
}

/// Sends the next frame; whether there was one. A Request of this turn that failed is given up.
fn send_one<R: RingSide>(
    node: u8,
    fresh: [bool; PATH_PLACES],
    host: &mut Host,
    ring: &mut R,
) -> Result<bool, Short>
    requires turning { HostTurningAt R.RingSide node host.old ring.old }
    requires holds { HoldsAt R.RingSide node ring.old }
    requires wait { 0 < (R.side ring.old).net.answer }
    requires new_calls { AreRecent (is_chosen fresh) (node_at R.RingSide node ring.old) }
    ensures turning { OnOk result (HostTurningAfter R.RingSide node host.new ring.old ring.new) }
    ensures holds { OnOk result (HoldsAfter R.RingSide node ring.old ring.new) }
    ensures less { IfOk result
        (λ sent. sent ≡ true → SendsFewer R.RingSide node ring.old ring.new) }
    ensures sends { OnOk result
        (SendsOver R.RingSide node fresh host.old host.new ring.old ring.new) }
    ensures new_calls { OnOk result
        (AreRecent (is_chosen fresh) (node_after R.RingSide node ring.old ring.new)) }
    ensures empty { IfOk result
        (λ sent. sent ≡ false → outbox_after R.RingSide node ring.old ring.new ≡ []) }
    ensures step { HostStep R.RingSide node host.old host.new ring.old ring.new }
{
    let Some(heard) = send_next(node, ring)? else {
        return Ok(false);
    };
    give_up_where(node, may_have_failed(heard, fresh), host, ring)?;
    Ok(true)
}

/// Sends until the outbox is empty.
fn send_all<R: RingSide>(
    node: u8,
    fresh: [bool; PATH_PLACES],
    host: &mut Host,
    ring: &mut R,
) -> Result<(), Short>
    requires turning { HostTurningAt R.RingSide node host.old ring.old }
    requires holds { HoldsAt R.RingSide node ring.old }
    requires wait { 0 < (R.side ring.old).net.answer }
    requires new_calls { AreRecent (is_chosen fresh) (node_at R.RingSide node ring.old) }
    ensures turning { OnOk result (HostTurningAfter R.RingSide node host.new ring.old ring.new) }
    ensures holds { OnOk result (HoldsAfter R.RingSide node ring.old ring.new) }
    ensures sends { OnOk result
        (SendsOutOver R.RingSide node fresh host.old host.new ring.old ring.new) }
    ensures step { HostStep R.RingSide node host.old host.new ring.old ring.new }
{
    while send_one(node, fresh, host, ring)? {}
    Ok(())
}

/// Ends the turn; where the node leaves, it gives up all calls that it has.
fn end_turn<R: RingSide>(
    node: u8,
    budget: bool,
    host: &mut Host,
    ring: &mut R,
) -> Result<bool, Short>
    requires turning { HostTurningAt R.RingSide node host.old ring.old }
    requires holds { HoldsAt R.RingSide node ring.old }
    requires wait { 0 < (R.side ring.old).net.answer }
    requires rest { RestsAt R.RingSide node ring.old }
    requires empty { (node_at R.RingSide node ring.old).inbox ≡ [] }
    ensures ties { OnOk result (HostTiesAfter R.RingSide node host.new ring.old ring.new) }
    ensures passed { IfOk result
        (λ left. left ≡ false → PassedAt R.RingSide node host.new ring.new) }
    ensures gone { IfOk result
        (λ left. left ≡ true → HasLeftAfter R.RingSide node ring.old ring.new) }
    ensures ends { IfOk result
        (EndsHostOver R.RingSide node budget host.old host.new ring.old ring.new) }
    ensures stays { IfOk result
        (λ left. left ≡ false → IsHereAfter R.RingSide node ring.old ring.new) }
    ensures step { HostStep R.RingSide node host.old host.new ring.old ring.new }
{
    let done = host.is_done();
    let left = hand_on(node, done, budget, ring)?;
    if !left {
        return Ok(false);
    }
    give_up_where(node, ALL_PATHS, host, ring)?;
    Ok(true)
}

/// One hold of the token, at this number of holds, from 1 on; whether the node left.
fn turn<R: RingSide>(
    alloc: Global,
    node: u8,
    hold: u32,
    budget: bool,
    host: &mut Host,
    ring: &mut R,
) -> Result<bool, Short>
    requires turning { HostTurningAt R.RingSide node host.old ring.old }
    requires holds { HoldsAt R.RingSide node ring.old }
    requires no_bridge { IsNoBridgeAt R.RingSide node ring.old }
    requires wait { 0 < (R.side ring.old).net.answer }
    requires hold { hold ≡ min (hold_of node (R.known ring.old)) 4294967295 }
    ensures ties { OnOk result (HostTiesAfter R.RingSide node host.new ring.old ring.new) }
    ensures passed { IfOk result
        (λ left. left ≡ false → PassedAt R.RingSide node host.new ring.new) }
    ensures gone { IfOk result
        (λ left. left ≡ true → HasLeftAfter R.RingSide node ring.old ring.new) }
    ensures held { IfOk result
        (HoldsHostOver R.RingSide node budget host.old host.new ring.old ring.new) }
    ensures stays { IfOk result
        (λ left. left ≡ false → IsHereAfter R.RingSide node ring.old ring.new) }
    ensures step { HostStep R.RingSide node host.old host.new ring.old ring.new }
{
    let _ = host.history();
    serve_inbox(alloc, node, host, ring)?;
    let fresh = ask_all(node, hold, host, ring)?;
    send_all(node, fresh, host, ring)?;
    give_up_where(node, ALL_PATHS, host, ring)?;
    end_turn(node, budget, host, ring)
}

/// The communication of a host: what its node does with the token. This project's own.
#[derive(Drop)]
pub struct HostWorker {
    alloc: Global,
    node: u8,
    budget: bool,
    passes: u32,
}

impl Model for HostWorker {
    ghost use Rattle.comm_port.specs.HostTurns.{HostWorkerIs};

    ghost Value = { HostWorkerIs };

    ghost view = { λ w. record { node = w.node; budget = w.budget; passes = w.passes } };
}

impl HostWorker {
    /// The worker of the host at a node. With a budget it leaves the ring once its Passes are
    /// spent. Nothing of the ring's plan is kept.
    pub fn new(alloc: Global, node: u8, _: &NetPlan, budget: bool) -> Result<HostWorker, AllocError>
        ensures { IfOk result
            (λ worker. worker ≡ record { node = node; budget = budget; passes = 0 }) }
    {
        Ok(HostWorker {
            alloc,
            node,
            budget,
            passes: 0,
        })
    }

    /// One hold of the token: takes what came, makes the requests that are due, sends, gives up the
    /// calls whose time has come, and then leaves the ring or passes the token on. The answer is
    /// whether the node left. The node is not the end of a bridge. The only error is that memory
    /// ran out: then the entries made so far stand, both lists are legal and the hold is not
    /// counted, but nothing is said of the laws.
    pub fn hold_turn<R: RingSide>(
        &mut self,
        host: &mut Host,
        ring: &mut R,
    ) -> Result<bool, AllocError>
        requires ties { HostTiesAt R.RingSide self.old.node host.old ring.old }
        requires holds { HoldsAt R.RingSide self.old.node ring.old }
        requires no_bridge { IsNoBridgeAt R.RingSide self.old.node ring.old }
        requires counts { CountsPasses self.old (R.known ring.old) }
        ensures ties { OnOk result (HostTiesAt R.RingSide self.new.node host.new ring.new) }
        ensures passed { IfOk result
            (λ left. left ≡ false → PassedAt R.RingSide self.old.node host.new ring.new) }
        ensures gone { IfOk result
            (λ left. left ≡ true → HasLeftAt R.RingSide self.old.node ring.new) }
        ensures worker { IfOk result (λ left. self.new ≡ after_turn self.old left) }
        ensures worker_err { OnErr result (self.new ≡ self.old) }
        ensures counts { OnOk result (CountsPasses self.new (R.known ring.new)) }
        ensures stays { IfOk result
            (λ left. left ≡ false → IsHereAt R.RingSide self.old.node ring.new) }
        ensures held { IfOk result
            (HoldsHostBy R.RingSide self.old host.old host.new ring.old ring.new) }
        ensures step { HostStep R.RingSide self.old.node host.old host.new ring.old ring.new }
    {
        let hold = self.passes.saturating_add(1);
        let Ok(left) = turn(self.alloc, self.node, hold, self.budget, host, ring) else {
            return Err(AllocError);
        };
        if !left {
            self.passes = hold;
        }
        Ok(left)
    }
}
