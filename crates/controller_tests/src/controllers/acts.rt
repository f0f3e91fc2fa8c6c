//! What is done with a controller, and whether it answers what it must.
use controller_core::{Call, CallKind, Controller, Entry, StepEnd};
use ladder_solver::NetworkFlow;
use mstr_block::{CallId, MstrResult};
use plant_types::{Block, Pdu, Ref};
use scan_order::ScanStep;
use std::alloc::{AllocError, Global};
use std::test::Fail;

/// What is done with a controller, and what it must answer.
pub enum Act {
    /// Takes the memory of a scan.
    Reserve,
    /// Makes this event as the next one, with memory that was taken.
    Did(ScanStep),
    /// Makes no event any more, and answers this.
    Over(StepEnd),
    /// Whether the memory of a scan is still kept.
    IsReserved(bool),
    /// Whether this step was the last of its scan.
    HasLine(ScanStep, bool),
    /// Answers a request of another node with this reply.
    Ask(&'static [u8], &'static [u8]),
    /// Gives a request of another node no reply.
    Silent(&'static [u8]),
    /// How often power failed, and whether there is none.
    Power(u32, bool),
    /// When the scan before began and when this one did, in ticks.
    Clock(u64, u64),
    /// Has this number at a reference.
    Has(Ref, u16),
    /// Hands on a read of two registers of node 5, and no other call.
    Collect,
    /// Gives that read these words, which ends it.
    Finish(&'static [u16]),
    /// Follows a Begin, and not an End before it.
    FollowBegin,
    /// Follows the Solve of this row, and notes just these networks.
    Conducts(u16, &'static [Noted]),
    /// Does not follow the Solve of this row, and notes nothing.
    NotDue(u16),
}

/// A network of segment 1 that was solved, and the rows that were live at the right border of each
/// column that was solved to its end: bit 0 is row 1.
pub struct Noted {
    pub network: usize,
    pub masks: &'static [u8],
}

/// Who asks.
pub const ASKER: CallId = CallId {
    node: 1,
    path: 1,
    seq: 1,
};

/// The name of the read.
const CALL: CallId = CallId {
    node: 2,
    path: 1,
    seq: 1,
};

fn pdu_of(alloc: Global, bytes: &[u8]) -> Result<Pdu, Fail> {
    match Pdu::of(alloc, bytes)? {
        Some(pdu) => Ok(pdu),
        None => Err("no PDU has as many bytes".into()),
    }
}

fn asks(
    alloc: Global,
    controller: &mut Controller,
    request: &[u8],
    reply: &[u8],
) -> Result<bool, Fail> {
    let request = pdu_of(alloc, request)?;
    match controller.peer(ASKER, &request)? {
        Some(answer) => Ok(answer.bytes() == reply),
        None => Ok(false),
    }
}

fn is_silent(alloc: Global, controller: &mut Controller, request: &[u8]) -> Result<bool, Fail> {
    let request = pdu_of(alloc, request)?;
    let answer = controller.peer(ASKER, &request)?;
    Ok(answer.is_none())
}

fn steps(controller: &mut Controller, end: StepEnd) -> bool {
    if !controller.is_reserved() {
        return false;
    }
    controller.step() == end
}

fn has(controller: &Controller, at: Ref, value: u16) -> bool {
    if !controller.has(at) {
        return false;
    }
    controller.get(at) == value
}

fn has_clock(controller: &Controller, before: u64, now: u64) -> bool {
    let clock = controller.state().clock;
    clock.before == before && clock.now == now
}

/// Whether these calls are the read alone.
fn is_read(calls: &[Call]) -> bool {
    match calls {
        [call] => match &call.kind {
            CallKind::Net { route, pdu } => {
                call.id == CALL
                    && route.addresses() == [5].as_slice()
                    && matches!(pdu.bytes(), [3, 0, 0, 0, 2])
            }
            _ => false,
        },
        _ => false,
    }
}

fn collects(controller: &mut Controller) -> Result<bool, AllocError> {
    if !controller.has_started() {
        return Ok(false);
    }
    let calls = controller.collect()?;
    Ok(is_read(calls.as_slice()))
}

fn finishes(controller: &mut Controller, words: &[u16]) -> Result<bool, AllocError> {
    if words.len() > 100 || !controller.is_out(CALL) {
        return Ok(false);
    }
    controller.finish(CALL, MstrResult::Good(Block::of(words)))?;
    Ok(!controller.is_out(CALL))
}

fn follows_begin(controller: &mut Controller) -> Result<bool, AllocError> {
    if controller.follow(&Entry::End)? {
        return Ok(false);
    }
    controller.follow(&Entry::Begin)
}

fn has_borders(flow: &NetworkFlow, masks: &[u8]) -> bool {
    for (i, border) in flow.borders.iter().enumerate() {
        if *border != masks.get(i).copied() {
            return false;
        }
    }
    true
}

/// Whether these networks are noted, in this order, and no others.
fn are_noted(flows: &[NetworkFlow], noted: &[Noted]) -> bool {
    if flows.len() != noted.len() {
        return false;
    }
    for (flow, network) in flows.iter().zip(noted) {
        let site = (flow.segment, flow.network);
        if site != (1, network.network) || !has_borders(flow, network.masks) {
            return false;
        }
    }
    true
}

fn conducts(
    alloc: Global,
    controller: &mut Controller,
    row: u16,
    noted: &[Noted],
) -> Result<bool, AllocError> {
    let mut notes = Vec::new(alloc);
    let followed = controller.follow_noting(&Entry::Solve(row), &mut notes)?;
    Ok(followed && are_noted(notes.as_slice(), noted))
}

fn is_not_due(alloc: Global, controller: &mut Controller, row: u16) -> Result<bool, AllocError> {
    let mut notes = Vec::new(alloc);
    let followed = controller.follow_noting(&Entry::Solve(row), &mut notes)?;
    Ok(!followed && notes.as_slice().is_empty())
}

/// Whether an act goes as it says.
fn goes(alloc: Global, controller: &mut Controller, act: &Act) -> Result<bool, Fail> {
    match act {
        Act::Reserve => {
            controller.reserve_scan()?;
            Ok(true)
        }
        Act::Did(step) => Ok(steps(controller, StepEnd::Did(*step))),
        Act::Over(end) => Ok(steps(controller, *end)),
        Act::IsReserved(is) => Ok(controller.is_reserved() == *is),
        Act::HasLine(step, has) => Ok(controller.has_line(StepEnd::Did(*step)) == *has),
        Act::Ask(request, reply) => asks(alloc, controller, request, reply),
        Act::Silent(request) => is_silent(alloc, controller, request),
        Act::Power(failures, off) => {
            Ok(controller.failures() == *failures && controller.is_off() == *off)
        }
        Act::Clock(before, now) => Ok(has_clock(controller, *before, *now)),
        Act::Has(at, value) => Ok(has(controller, *at, *value)),
        Act::Collect => Ok(collects(controller)?),
        Act::Finish(words) => Ok(finishes(controller, words)?),
        Act::FollowBegin => Ok(follows_begin(controller)?),
        Act::Conducts(row, noted) => Ok(conducts(alloc, controller, *row, noted)?),
        Act::NotDue(row) => Ok(is_not_due(alloc, controller, *row)?),
    }
}

/// Does these, and answers the place of the first that goes otherwise, if there is one.
pub fn first_wrong(
    alloc: Global,
    controller: &mut Controller,
    acts: &[Act],
) -> Result<Option<usize>, Fail> {
    for (i, act) in acts.iter().enumerate() {
        if !goes(alloc, controller, act)? {
            return Ok(Some(i));
        }
    }
    Ok(None)
}
