//! What an MSTR block is in the middle of.
ghost use Rattle.std.specs.Prelude.{◌≡◌, option_copied, None};
ghost use Rattle.mstr_block.specs.Table.{running_in, untaken_call, runs_on, is_awaited, untaken};
ghost use Rattle.mstr_block.specs.Table.{is_untaken, call_taken, given_up, call_ended, with_result};
ghost use Rattle.mstr_block.specs.Table.{power_lost};

use crate::call::{CallId, MstrAsk, MstrCall, MstrResult};
use crate::operation::Operation;
use std::mem;

/// What a block keeps of its control block for the answer.
#[derive(Clone, Copy, Drop)]
pub(crate) struct Kept {
    pub operation: Operation,
    /// The first word of the statistics.
    pub start: u16,
    /// The most words of the answer.
    pub length: u16,
}

/// A call that was started and has no result.
#[derive(Drop)]
pub(crate) struct Running {
    pub id: CallId,
    /// What it asks for, until it is taken.
    pub ask: Option<MstrAsk>,
    pub kept: Kept,
}

#[derive(Drop)]
pub(crate) enum BlockState {
    Idle,
    /// No path was free.
    Waiting,
    Active(Running),
    /// The block no longer awaits its call, which goes on and holds its path.
    Aborted(Running),
    /// The call has ended; the block has not been solved since.
    Ready { kept: Kept, result: MstrResult },
}

impl Running {
    fn untaken(&self) -> Option<MstrCall>
        ensures { result ≡ untaken_call self.now }
    {
        match &self.ask {
            Some(ask) => Some(MstrCall {
                id: self.id,
                ask: ask.again(),
            }),
            None => None,
        }
    }

    fn take(&mut self) -> Option<MstrCall>
        ensures call { result ≡ untaken_call self.old }
        ensures taken { self.new ≡ record self.old { ask = None } }
    {
        let ask = self.ask.take()?;
        Some(MstrCall { id: self.id, ask })
    }
}

impl BlockState {
    fn running(&self) -> Option<&Running>
        ensures { option_copied result ≡ running_in self.now }
    {
        match self {
            BlockState::Active(running) => Some(running),
            BlockState::Aborted(running) => Some(running),
            _ => None,
        }
    }

    /// Whether it runs a call on this path.
    pub fn runs_on(&self, path: u8) -> bool
        ensures { result ≡ runs_on path self.now }
    {
        match self.running() {
            Some(running) => running.id.path == path,
            None => false,
        }
    }

    /// Whether the call of this name was taken and has no result.
    pub fn is_awaited(&self, id: CallId) -> bool
        ensures { result ≡ is_awaited id self.now }
    {
        match self.running() {
            Some(running) => running.ask.is_none() && running.id.is_same(id),
            None => false,
        }
    }

    /// Whether it started a call that was not taken yet.
    pub fn is_untaken(&self) -> bool
        ensures { result ≡ is_untaken self.now }
    {
        match self.running() {
            Some(running) => running.ask.is_some(),
            None => false,
        }
    }

    /// The call that was started and not taken yet.
    pub fn untaken(&self) -> Option<MstrCall>
        ensures { result ≡ untaken self.now }
    {
        self.running()?.untaken()
    }

    /// The call that was started and not taken yet; it is taken from then on.
    pub fn take(&mut self) -> Option<MstrCall>
        ensures call { result ≡ untaken self.old }
        ensures taken { self.new ≡ call_taken self.old }
    {
        match self {
            BlockState::Active(running) => running.take(),
            BlockState::Aborted(running) => running.take(),
            _ => None,
        }
    }

    /// The block no longer awaits its call.
    pub fn give_up(&mut self)
        ensures { self.new ≡ given_up self.old }
    {
        let state = mem::replace(self, BlockState::Idle);
        *self = match state {
            BlockState::Active(running) => BlockState::Aborted(running),
            other => other,
        };
    }

    /// The controller loses power. A call that runs goes on.
    pub fn lose_power(&mut self)
        ensures { self.new ≡ power_lost self.old }
    {
        match self {
            BlockState::Waiting | BlockState::Ready { .. } => *self = BlockState::Idle,
            _ => self.give_up(),
        }
    }

    fn end(&mut self, outcome: &MstrResult)
        ensures { self.new ≡ call_ended outcome.now self.old }
    {
        match self {
            BlockState::Active(running) => {
                let kept = running.kept;
                *self = BlockState::Ready {
                    kept,
                    result: outcome.again(),
                };
            }
            BlockState::Aborted(_) => *self = BlockState::Idle,
            _ => {}
        }
    }

    /// The taken call of this name ends.
    pub fn finish(&mut self, id: CallId, outcome: &MstrResult)
        ensures { self.new ≡ with_result id outcome.now self.old }
    {
        if self.is_awaited(id) {
            self.end(outcome);
        }
    }
}
