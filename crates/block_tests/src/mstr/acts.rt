//! What is done with blocks, one after another, and what is found.
use super::rig::{Rig, Stand, call_id};
use mstr_block::{CallId, MstrAsk, MstrCall, MstrResult};
use std::alloc::{AllocError, AllocGlobal};
use std::process::Abort;

/// What a call asks for, as far as a test tells it.
pub(crate) enum Asks {
    Anything,
    Read {
        route: &'static [u8],
        start: u16,
        length: u16,
    },
    OwnStatistics,
    PutGlobal(&'static [u16]),
}

/// What is done with blocks and registers, and what is found. A call is named by its path and its
/// number there.
pub(crate) enum Act {
    /// Registers from one on are set.
    Set(u16, &'static [u16]),
    /// A register has this number.
    Has(u16, u16),
    /// A block that stands there has this power at its inputs, and then that at its outputs.
    Solve(u16, Stand, u8, u8),
    /// The next call that was started is this one, and is taken.
    Take(u8, u32, Asks),
    /// A call by its place among those that were started and not taken.
    Started(u32, u8, u32, Asks),
    /// No call has this place among them.
    NotStarted(u32),
    /// Whether there is one of them.
    HasStarted(bool),
    /// A call that was taken ends with these words, at most 100.
    Succeed(u8, u32, &'static [u16]),
    /// A call that was taken ends with an error word.
    Fail(u8, u32, u16),
    /// Whether a call was taken and has no result.
    IsOut(u8, u32, bool),
    /// The controller loses power.
    PowerFails,
}

fn is_asked(ask: &MstrAsk, asks: &Asks) -> bool {
    match asks {
        Asks::Anything => true,
        Asks::Read {
            route,
            start,
            length,
        } => match ask {
            MstrAsk::Read {
                route: way,
                start: first,
                length: count,
            } => way.addresses() == *route && *first == *start && *count == *length,
            _ => false,
        },
        Asks::OwnStatistics => matches!(ask, MstrAsk::LocalStats),
        Asks::PutGlobal(words) => match ask {
            MstrAsk::PutGlobal(held) => held.words() == *words,
            _ => false,
        },
    }
}

fn is_call(call: Option<MstrCall>, id: CallId, asks: &Asks) -> bool {
    match call {
        Some(call) => call.id == id && is_asked(&call.ask, asks),
        None => false,
    }
}

/// Whether an act goes as it says.
fn goes(rt: &impl Abort, rig: &mut Rig, act: &Act) -> bool {
    match act {
        Act::Set(number, words) => {
            rig.fill(rt, *number, words);
            true
        }
        Act::Has(number, word) => rig.get(rt, *number) == *word,
        Act::Solve(block, stand, inputs, outputs) => {
            rig.solve(rt, *block, *stand, *inputs) == *outputs
        }
        Act::Take(path, seq, asks) => is_call(rig.bank.take_started(), call_id(*path, *seq), asks),
        Act::Started(k, path, seq, asks) => {
            is_call(rig.bank.started(*k), call_id(*path, *seq), asks)
        }
        Act::NotStarted(k) => rig.bank.started(*k).is_none(),
        Act::HasStarted(has) => rig.bank.has_started() == *has,
        Act::Succeed(path, seq, words) => {
            rig.succeed(rt, call_id(*path, *seq), words);
            true
        }
        Act::Fail(path, seq, word) => {
            rig.finish(rt, call_id(*path, *seq), MstrResult::Bad(*word));
            true
        }
        Act::IsOut(path, seq, is) => rig.bank.is_out(call_id(*path, *seq)) == *is,
        Act::PowerFails => {
            rig.bank.power_fail();
            true
        }
    }
}

/// What is done with so many blocks of a station, whose routes may lead over bridges or not.
pub(crate) struct Script {
    pub name: &'static str,
    pub blocks: u16,
    pub routed: bool,
    pub acts: &'static [Act],
}

/// Each act goes as it says.
pub(crate) fn play(rt: &impl Abort, rig: &mut Rig, name: &str, acts: &[Act]) {
    for (i, act) in acts.iter().enumerate() {
        let went = goes(rt, rig, act);
        assert!(rt; went, "{name}: act {i}");
    }
}

/// Each script goes as it says.
pub(crate) fn show(rt: &(impl Abort + AllocGlobal), scripts: &[Script]) -> Result<(), AllocError> {
    for script in scripts {
        let mut rig = Rig::new(rt.alloc(), script.blocks, script.routed)?;
        play(rt, &mut rig, script.name, script.acts);
    }
    Ok(())
}
