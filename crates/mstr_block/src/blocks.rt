//! A table of MSTR blocks, and the calls of each path.
ghost use Rattle.std.specs.Prelude.{◌≡◌, ◌-◌, ◌==◌, ◌<◌, true, set, replicate, if◌then◌else◌, None};
ghost use Rattle.std.specs.Prelude.{slice_get, IfOk, IfSome};
ghost use Rattle.std.specs.List.{position, find, list_any};
ghost use Rattle.plant_types.specs.Slots.{control_block};
ghost use Rattle.plant_types.specs.Store.{HasRegisters};
ghost use Rattle.mstr_block.specs.Control.{FitsStart};
ghost use Rattle.mstr_block.specs.Solve.{launched_at, StartsBlock, EndsBlock, AbortsBlock};
ghost use Rattle.mstr_block.specs.Solve.{SolvesWith};
ghost use Rattle.plant_types.specs.Limits.{path_places};
ghost use Rattle.mstr_block.specs.Table.{network_paths, runs_on, is_spent, is_free};
ghost use Rattle.mstr_block.specs.Table.{path_for, next_call, with_state};
ghost use Rattle.mstr_block.specs.Table.{CanGive, IsBlock, resting_table, started_calls};
ghost use Rattle.mstr_block.specs.Table.{has_untaken, is_untaken, first_taken, is_taken_out};
ghost use Rattle.mstr_block.specs.Table.{finished, power_failed};

use crate::answer::{ACTIVE, ERROR, SILENT};
use crate::call::{CallId, MstrCall, MstrResult};
use crate::control::{Control, status_register};
use crate::operation::Operation;
use crate::site::Site;
use crate::state::{BlockState, Kept, Running};
use plant_types::{NETWORK_PATHS, NodePower, PATH_PLACES, Ref, RefStore};
use std::alloc::{AllocError, Global};
use std::marker::Model;

/// The path of calls of the own station.
const OWN_PATH: u8 = 0;

/// The status where a block is told to give up.
const USER_ABORT: u16 = 0x1001;

/// The blocks of a station, numbered from 1 on, and the last number that each path gave a call.
#[derive(Drop)]
pub(crate) struct Blocks {
    node: u8,
    routed: bool,
    blocks: Vec<BlockState>,
    numbers: [u32; PATH_PLACES],
}

impl Model for Blocks {
    ghost use Rattle.mstr_block.specs.Table.{BlockTable};

    ghost Value = { BlockTable };

    ghost view = { λ b. record {
      node = b.node;
      routed = b.routed;
      blocks = b.blocks.items;
      numbers = b.numbers;
    } };
}

/// As many idle blocks.
fn idle_blocks(alloc: Global, count: u16) -> Result<Vec<BlockState>, AllocError>
    ensures { IfOk result (λ made. made.items ≡ replicate count BlockState.Idle) }
{
    let mut blocks = Vec::new(alloc);
    for _ in 0..count {
        blocks.push(BlockState::Idle)?;
    }
    Ok(blocks)
}

impl Blocks {
    /// As many idle blocks, with the last numbers of the paths.
    pub fn new(
        alloc: Global,
        node: u8,
        routed: bool,
        blocks: u16,
        numbers: [u32; PATH_PLACES],
    ) -> Result<Blocks, AllocError>
        ensures { IfOk result (λ made. made ≡ resting_table node routed blocks numbers) }
    {
        Ok(Blocks {
            node,
            routed,
            blocks: idle_blocks(alloc, blocks)?,
            numbers,
        })
    }

    /// Whether it has a block of this number.
    pub fn has(&self, block: u16) -> bool
        ensures only { result ≡ true → IsBlock self.now block }
        ensures all { IsBlock self.now block → result ≡ true }
    {
        block >= 1 && usize::from(block) <= self.blocks.len()
    }

    fn next_untaken(&self) -> Option<usize>
        ensures { result ≡ position is_untaken self.now.blocks }
    {
        self.blocks.iter().position(|block| block.is_untaken())
    }

    /// The first started call that was not taken yet; it is taken from then on.
    pub fn take_started(&mut self) -> Option<MstrCall>
        ensures call { result ≡ slice_get (started_calls self.old) 0 }
        ensures taken { self.new ≡ first_taken self.old }
    {
        match self.next_untaken() {
            Some(place) => self.blocks[place].take(),
            None => None,
        }
    }

    /// The k-th, from 1 on, of the started calls that were not taken yet.
    pub fn started(&self, k: u32) -> Option<MstrCall>
        ensures { result ≡ (if k == 0 then None else slice_get (started_calls self.now) (k - 1)) }
    {
        let mut left = k.checked_sub(1)?;
        for block in self.blocks.iter() {
            if let Some(call) = block.untaken() {
                if left == 0 {
                    return Some(call);
                }
                left -= 1;
            }
        }
        None
    }

    /// Whether there is a started call that was not taken yet.
    pub fn has_started(&self) -> bool
        ensures { result ≡ has_untaken self.now }
    {
        self.blocks.iter().any(|block| block.is_untaken())
    }

    /// Whether the call of this name was taken and has no result.
    pub fn is_out(&self, id: CallId) -> bool
        ensures { result ≡ is_taken_out self.now id }
    {
        self.blocks.iter().any(|block| block.is_awaited(id))
    }

    /// Ends a call that was taken.
    pub fn finish(&mut self, id: CallId, outcome: MstrResult)
        requires { is_taken_out self.old id ≡ true }
        ensures { self.new ≡ finished id outcome self.old }
    {
        for block in self.blocks.iter_mut() {
            block.finish(id, &outcome);
        }
    }

    /// The controller loses power.
    pub fn power_fail(&mut self)
        ensures { self.new ≡ power_failed self.old }
    {
        for block in self.blocks.iter_mut() {
            block.lose_power();
        }
    }

    fn is_spent(&self, path: u8) -> bool
        requires { path < path_places }
        ensures { result ≡ is_spent self.now path }
    {
        self.numbers[usize::from(path)] == u32::MAX
    }

    /// Whether a call runs on a path.
    fn is_used(&self, path: u8) -> bool
        ensures { result ≡ list_any (runs_on path) self.now.blocks }
    {
        self.blocks.iter().any(|block| block.runs_on(path))
    }

    fn is_free(&self, path: u8) -> bool
        requires { path < path_places }
        ensures { result ≡ is_free self.now path }
    {
        !self.is_spent(path) && !self.is_used(path)
    }

    fn free_path(&self) -> Option<u8>
        ensures free { result ≡ find (is_free self.now) network_paths }
        ensures gives { IfSome result (λ path. CanGive self.now path) }
    {
        for path in NETWORK_PATHS {
            if self.is_free(path) {
                return Some(path);
            }
        }
        None
    }

    fn path_for(&self, operation: Operation) -> Option<u8>
        ensures path { result ≡ path_for self.now operation }
        ensures gives { IfSome result (λ path. CanGive self.now path) }
    {
        if operation.uses_network() {
            self.free_path()
        } else if self.is_spent(OWN_PATH) {
            None
        } else {
            Some(OWN_PATH)
        }
    }

    /// The name of the next call of a path.
    fn next_call(&mut self, path: u8) -> CallId
        requires { CanGive self.old path }
        ensures call { result ≡ next_call self.old path }
        ensures given { self.new ≡
            record self.old { numbers = set self.old.numbers path result.seq } }
    {
        let place = usize::from(path);
        self.numbers[place] += 1;
        CallId {
            node: self.node,
            path,
            seq: self.numbers[place],
        }
    }

    fn set_state(&mut self, block: u16, state: BlockState)
        requires { IsBlock self.old block }
        ensures { self.new ≡ with_state self.old block state }
    {
        self.blocks[usize::from(block - 1)] = state;
    }

    /// Runs a call whose start passed its tests, or waits for a path.
    fn launch<R: RefStore>(
        &mut self,
        block: u16,
        site: Site,
        operation: Operation,
        control: &Control,
        ram: &R,
    )
        requires block { IsBlock self.old block }
        requires fits { FitsStart site.room operation control.now }
        requires area { HasRegisters (R.contents ram.now) site.area site.room }
        ensures { self.new ≡
            launched_at self.old block site operation control.now (R.contents ram.now) }
    {
        let state = match self.path_for(operation) {
            Some(path) => BlockState::Active(Running {
                id: self.next_call(path),
                ask: Some(control.ask(operation, site.area, site.room, ram)),
                kept: Kept {
                    operation,
                    start: control.start,
                    length: control.length,
                },
            }),
            None => BlockState::Waiting,
        };
        self.set_state(block, state);
    }

    /// The block ends with an error word.
    fn end_with<R: RefStore>(
        &mut self,
        word: u16,
        state: BlockState,
        block: u16,
        site: Site,
        ram: &mut R,
    ) -> u8
        requires block { IsBlock self.old block }
        requires control { HasRegisters (R.contents ram.old) site.control control_block }
        ensures { EndsBlock word state block site self.old self.new result
            (R.contents ram.old) (R.contents ram.new) }
    {
        ram.set_word(status_register(site.control), word);
        self.set_state(block, state);
        ERROR.bits()
    }

    /// A start with the registers as they are now.
    fn start<R: RefStore>(&mut self, block: u16, site: Site, ram: &mut R) -> u8
        requires block { IsBlock self.old block }
        requires control { HasRegisters (R.contents ram.old) site.control control_block }
        requires area { HasRegisters (R.contents ram.old) site.area site.room }
        ensures { StartsBlock block site self.old self.new result
            (R.contents ram.old) (R.contents ram.new) }
    {
        let control = Control::read(site.control, ram);
        match control.start(self.routed, self.node, site.room) {
            Ok(operation) => {
                self.launch(block, site, operation, &control, ram);
                ram.set_word(status_register(site.control), 0);
                ACTIVE.bits()
            }
            Err(word) => self.end_with(word, BlockState::Idle, block, site, ram),
        }
    }

    /// The block gives its call up.
    fn abort<R: RefStore>(&mut self, block: u16, site: Site, ram: &mut R) -> u8
        requires block { IsBlock self.old block }
        requires control { HasRegisters (R.contents ram.old) site.control control_block }
        ensures { AbortsBlock block site self.old self.new result
            (R.contents ram.old) (R.contents ram.new) }
    {
        ram.set_word(status_register(site.control), USER_ABORT);
        self.blocks[usize::from(block - 1)].give_up();
        ERROR.bits()
    }

    /// Solves a block.
    #[tactic(auto, unfolding(crate::specs::Solve::block_solved))]
    pub fn solve<R: RefStore>(
        &mut self,
        block: u16,
        site: Site,
        nodes: NodePower,
        ram: &mut R,
    ) -> u8
        requires block { IsBlock self.old block }
        requires control { HasRegisters (R.contents ram.old) site.control control_block }
        requires area { HasRegisters (R.contents ram.old) site.area site.room }
        ensures { SolvesWith block site nodes self.old self.new result
            (R.contents ram.old) (R.contents ram.new) }
    {
        match &self.blocks[usize::from(block - 1)] {
            BlockState::Idle if nodes.top && !nodes.middle => self.start(block, site, ram),
            BlockState::Idle => SILENT.bits(),
            BlockState::Waiting if nodes.middle => {
                self.end_with(USER_ABORT, BlockState::Idle, block, site, ram)
            }
            BlockState::Waiting => self.start(block, site, ram),
            BlockState::Active(_) if nodes.middle => self.abort(block, site, ram),
            BlockState::Active(_) => ACTIVE.bits(),
            BlockState::Aborted(_) => SILENT.bits(),
            BlockState::Ready { kept, result } => {
                let outputs = kept.answer(result, site, ram);
                self.set_state(block, BlockState::Idle);
                outputs
            }
        }
    }
}
