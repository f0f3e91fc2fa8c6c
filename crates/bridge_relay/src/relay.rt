//! Both ends of a bridge, and what each entry makes of them.
ghost use Rattle.std.specs.Prelude.{◌≡◌, map, IfOk, OnOk, OnErr};
ghost use Rattle.std.specs.Prelude.{option_to_list};
ghost use Rattle.ring_core.specs.Legal.{IsPath};
ghost use Rattle.bridge_relay.specs.Machine.{new_relay, near_end, relay_step};
ghost use Rattle.bridge_relay.specs.Machine.{exception_of, exception_to, code_of_word};
ghost use Rattle.bridge_relay.specs.Machine.{reply_of, returned};
ghost use Rattle.bridge_relay.specs.Machine.{relay_path, freed, gives, left_for_good, unsent};
ghost use Rattle.bridge_relay.specs.Kept.{HasRelayPath, code_between, near_accepted, far_accepted};
ghost use Rattle.bridge_relay.specs.Kept.{near_after, far_after};

use crate::end::{End, OutCall, Returned, Waiting};
use crate::entry::{BridgeEntry, RelayResult};
use modbus_pdu::{ILLEGAL_FUNCTION, Reply, encode_reply};
use plant_types::{BridgePlan, Copied, Pdu, Route};
use ring_core::{CallId, NOBODY_THERE};
use std::alloc::{AllocError, Global};
use std::collections::VecDeque;
use std::marker::Model;

/// How many requests an end has to send at most.
const WAITING_LIMIT: usize = 16;

/// The code of a path that is not there.
const NO_PATH: u8 = 10;

/// The code of a target that gave no answer.
const NO_ANSWER: u8 = 11;

/// The code of a bridge that has no room.
const BUSY: u8 = 6;

/// Both ends.
pub(crate) struct Relay {
    left: End,
    right: End,
}

impl Model for Relay {
    ghost use Rattle.bridge_relay.specs.Machine.{RelayIs};

    ghost Value = { RelayIs };

    ghost view = { λ r. record { left = r.left; right = r.right } };
}

impl Drop for Relay {
    fn drop(self) {
        let Relay { left: _, right: _ } = self;
    }
}

/// The exception of this code that answers a request of a function.
fn exception_of(alloc: Global, function: u8, code: u8) -> Result<Pdu, AllocError>
    ensures { IfOk result (λ reply. reply ≡ exception_of function code) }
{
    encode_reply(alloc, &Reply::Exception { function, code })
}

/// The exception of this code that answers a request.
fn exception_to(alloc: Global, request: &Pdu, code: u8) -> Result<Pdu, AllocError>
    ensures { IfOk result (λ reply. reply ≡ exception_to request.now code) }
{
    let bytes = request.bytes();
    let function = bytes[0];
    exception_of(alloc, function, code)
}

/// The code for an error word.
fn code_of_word(word: u16) -> u8
    ensures { result ≡ code_of_word word }
{
    if word == NOBODY_THERE {
        NO_PATH
    } else {
        NO_ANSWER
    }
}

/// The reply to a request of a function whose call came to this.
fn reply_of(alloc: Global, function: u8, outcome: &RelayResult) -> Result<Pdu, AllocError>
    ensures { IfOk result (λ reply. reply ≡ reply_of function outcome.now) }
{
    match outcome {
        RelayResult::Reply(reply) => reply.copied(alloc),
        RelayResult::Bad(word) => exception_of(alloc, function, code_of_word(*word)),
    }
}

/// The code with which a request by this route is answered at once, by the end across and its
/// address; None where it waits to go on.
fn code_at_once(across: u8, far: &End, route: Route) -> Option<u8>
    ensures { result ≡ code_between across far.now route }
{
    let Some((next, _)) = route.split_first() else {
        return Some(ILLEGAL_FUNCTION);
    };
    if far.is_gone() || next == across {
        return Some(NO_PATH);
    }
    if far.waiting() >= WAITING_LIMIT {
        return Some(BUSY);
    }
    None
}

/// The request waits at the end across, or its reply at the near one.
fn accept(
    alloc: Global,
    across: u8,
    near: &mut End,
    far: &mut End,
    item: Waiting,
) -> Result<(), AllocError>
    ensures near { OnOk result
        (near.new ≡ near_accepted near.old item (code_between across far.old item.route)) }
    ensures far { OnOk result
        (far.new ≡ far_accepted far.old item (code_between across far.old item.route)) }
    ensures near_err { OnErr result (near.new ≡ near.old) }
    ensures far_err { OnErr result (far.new ≡ far.old) }
{
    match code_at_once(across, far, item.route) {
        None => far.wait_for(item),
        Some(code) => {
            let reply = exception_to(alloc, &item.request, code)?;
            near.give(Returned { id: item.id, reply })
        }
    }
}

/// The reply that a call which came to this gives back.
fn returned(
    alloc: Global,
    call: Option<OutCall>,
    outcome: &RelayResult,
) -> Result<Option<Returned>, AllocError>
    ensures { IfOk result (λ item. option_to_list item ≡ returned call outcome.now) }
{
    match call {
        None => Ok(None),
        Some(call) => Ok(Some(Returned {
            id: call.old,
            reply: reply_of(alloc, call.function, outcome)?,
        })),
    }
}

/// The path of a call is free, and its reply waits at the end across.
fn finish(
    alloc: Global,
    near: &mut End,
    far: &mut End,
    id: CallId,
    outcome: &RelayResult,
) -> Result<(), AllocError>
    requires { IsPath id.path }
    ensures near { OnOk result (near.new ≡ freed near.old id.path) }
    ensures far { OnOk result
        (far.new ≡ gives far.old (returned (relay_path near.old id.path).out outcome.now)) }
    ensures near_err { OnErr result (near.new ≡ near.old) }
    ensures far_err { OnErr result (far.new ≡ far.old) }
{
    if let Some(item) = returned(alloc, near.call_out(id.path), outcome)? {
        far.give(item)?;
    }
    near.free(id.path);
    Ok(())
}

/// For each request that waits, that the path is not there.
fn unsent(alloc: Global, items: &VecDeque<Waiting>) -> Result<VecDeque<Returned>, AllocError>
    ensures { IfOk result (λ replies. replies.items ≡ map unsent items.now.items) }
{
    let mut replies = VecDeque::new(alloc);
    for at in 0..items.len() {
        let item = &items[at];
        let reply = exception_to(alloc, &item.request, NO_PATH)?;
        replies.push_back(Returned { id: item.id, reply })?;
    }
    Ok(replies)
}

/// The near end leaves for good: the one across gives back that the path is not there.
fn leave(alloc: Global, near: &mut End, far: &mut End) -> Result<(), AllocError>
    ensures near { OnOk result (near.new ≡ left_for_good near.old) }
    ensures far { OnOk result (far.new ≡ gives far.old (map unsent near.old.to_send)) }
    ensures near_err { OnErr result (near.new ≡ near.old) }
    ensures far_err { OnErr result (far.new ≡ far.old) }
{
    far.give_all(unsent(alloc, near.to_send())?)?;
    near.leave();
    Ok(())
}

/// What an entry makes of the end that makes it and of the one across, which has this address.
fn take_step(
    alloc: Global,
    across: u8,
    near: &mut End,
    far: &mut End,
    entry: &BridgeEntry,
) -> Result<(), AllocError>
    requires { HasRelayPath entry.now }
    ensures near { OnOk result (near.new ≡ near_after across near.old far.old entry.now) }
    ensures far { OnOk result (far.new ≡ far_after across near.old far.old entry.now) }
    ensures near_err { OnErr result (near.new ≡ near.old) }
    ensures far_err { OnErr result (far.new ≡ far.old) }
{
    match entry {
        BridgeEntry::Accept {
            id,
            route,
            request,
            ..
        } => {
            let item = Waiting::of(alloc, *id, *route, request)?;
            accept(alloc, across, near, far, item)
        }
        BridgeEntry::Forward {
            old,
            id,
            request,
            ..
        } => {
            near.send_on(*id, OutCall::of(*old, request));
            Ok(())
        }
        BridgeEntry::Finish { id, result, .. } => finish(alloc, near, far, *id, result),
        BridgeEntry::Back { .. } => {
            near.give_back();
            Ok(())
        }
        BridgeEntry::Gone { .. } => leave(alloc, near, far),
    }
}

impl Relay {
    /// Ends that have done nothing yet.
    pub fn new(alloc: Global) -> Relay
        ensures { result ≡ new_relay }
    {
        Relay {
            left: End::new(alloc),
            right: End::new(alloc),
        }
    }

    /// The end of an address.
    pub fn near(&self, plan: &BridgePlan, side: u8) -> &End
        ensures { result.now ≡ near_end plan.now self.now side }
    {
        if side == plan.left {
            &self.left
        } else {
            &self.right
        }
    }

    /// What an entry makes of both ends.
    pub fn step(
        &mut self,
        alloc: Global,
        plan: &BridgePlan,
        entry: &BridgeEntry,
    ) -> Result<(), AllocError>
        requires { HasRelayPath entry.now }
        ensures ok { OnOk result (self.new ≡ relay_step plan.now self.old entry.now) }
        ensures err { OnErr result (self.new ≡ self.old) }
    {
        if entry.side() == plan.left {
            take_step(alloc, plan.right, &mut self.left, &mut self.right, entry)
        } else {
            take_step(alloc, plan.left, &mut self.right, &mut self.left, entry)
        }
    }
}
