//! The MSTR blocks of a controller.
ghost use Rattle.std.specs.Prelude.{◌≡◌, ◌-◌, ◌==◌, true, None, if◌then◌else◌, slice_get, IfOk};
ghost use Rattle.std.specs.Prelude.{IfSome};
ghost use Rattle.plant_types.specs.Power.{nodes_of};
ghost use Rattle.plant_types.specs.Slots.{control_block};
ghost use Rattle.plant_types.specs.Store.{HasRegisters};
ghost use Rattle.mstr_block.specs.Running.{IsCall, IsTable};
ghost use Rattle.mstr_block.specs.Solve.{SolvesBlock, block_solved};
ghost use Rattle.mstr_block.specs.Table.{IsBlock, idle_table, resting_table, started_calls};
ghost use Rattle.mstr_block.specs.Table.{has_untaken, first_taken, is_taken_out, finished};
ghost use Rattle.mstr_block.specs.Table.{power_failed};

use crate::blocks::Blocks;
use crate::call::{CallId, MstrCall, MstrResult};
use crate::site::Site;
use plant_types::{NodePower, PATH_PLACES, Ref, RefStore};
use std::alloc::{AllocError, Global};
use std::marker::Model;

/// The MSTR blocks of a controller, numbered from 1 on, and the calls that they started
/// (*Modicon Ladder Logic Block Library User Guide*).
#[derive(Drop)]
pub struct MstrBank {
    blocks: Blocks,
}

impl Model for MstrBank {
    ghost use Rattle.mstr_block.specs.Table.{BlockTable};
    ghost use Rattle.mstr_block.specs.Running.{IsTable};

    ghost Value = { BlockTable };

    ghost view = { λ b. b.blocks };

    ghost invariant = { λ b. IsTable b.blocks };
}

impl MstrBank {
    /// The blocks of the station at an address, 1 to 64: as many, all idle. Its routes may lead over
    /// bridges where it is `routed`.
    pub fn new(alloc: Global, node: u8, blocks: u16, routed: bool) -> Result<MstrBank, AllocError>
        ensures { IfOk result (λ bank. bank ≡ idle_table node routed blocks) }
    {
        MstrBank::with_numbers(alloc, node, blocks, routed, [0; PATH_PLACES])
    }

    /// Such blocks, whose paths go on from the last numbers that they gave, with path 0 first.
    pub fn with_numbers(
        alloc: Global,
        node: u8,
        blocks: u16,
        routed: bool,
        numbers: [u32; PATH_PLACES],
    ) -> Result<MstrBank, AllocError>
        ensures { IfOk result (λ bank. bank ≡ resting_table node routed blocks numbers) }
    {
        let blocks = Blocks::new(alloc, node, routed, blocks, numbers)?;
        Ok(MstrBank { blocks })
    }

    /// What holds of every bank, whatever its calls were; it does nothing.
    pub fn holds_table(&self)
        ensures { IsTable self.now }
    {
        let _blocks = &self.blocks;
    }

    /// Whether it has a block of this number.
    pub fn has(&self, block: u16) -> bool
        ensures only { result ≡ true → IsBlock self.now block }
        ensures all { IsBlock self.now block → result ≡ true }
    {
        self.blocks.has(block)
    }

    /// The first, by block, of the started calls that were not taken yet; it is taken from then on.
    /// Takes no memory.
    pub fn take_started(&mut self) -> Option<MstrCall>
        ensures call { result ≡ slice_get (started_calls self.old) 0 }
        ensures taken { self.new ≡ first_taken self.old }
        ensures named { IfSome result (IsCall self.old.routed self.old.node) }
        ensures table { IsTable self.new }
    {
        self.blocks.take_started()
    }

    /// The k-th, from 1 on, of the started calls that were not taken yet, by block. Takes no
    /// memory.
    pub fn started(&self, k: u32) -> Option<MstrCall>
        ensures call { result ≡
            (if k == 0 then None else slice_get (started_calls self.now) (k - 1)) }
        ensures named { IfSome result (IsCall self.now.routed self.now.node) }
    {
        self.blocks.started(k)
    }

    /// Whether there is a started call that was not taken yet.
    pub fn has_started(&self) -> bool
        ensures { result ≡ has_untaken self.now }
    {
        self.blocks.has_started()
    }

    /// Whether the call of this name was taken and has no result.
    pub fn is_out(&self, id: CallId) -> bool
        ensures { result ≡ is_taken_out self.now id }
    {
        self.blocks.is_out(id)
    }

    /// Ends a call that was taken: its block is ready with the result, or idle where it gave the
    /// call up. Takes no memory.
    pub fn finish(&mut self, id: CallId, outcome: MstrResult)
        requires { is_taken_out self.old id ≡ true }
        ensures { self.new ≡ finished id outcome self.old }
    {
        self.blocks.finish(id, outcome);
    }

    /// The controller loses power: a block that waits for a path, or is ready with a result, is idle
    /// from then on, and one that awaits its call gives it up, whether or not that was taken. Each
    /// call that runs goes on, and each path keeps its number. Takes no memory.
    pub fn power_fail(&mut self)
        ensures { self.new ≡ power_failed self.old }
    {
        self.blocks.power_fail();
    }

    /// Solves a block of this number, from 1 on, with its nine control registers from `control` on
    /// and the `length` registers of its data area from `area` on. Takes no memory.
    ///
    /// Inputs: the top node enables it, the middle one aborts it. Outputs: the top node is on while
    /// a call runs, the middle one as it ends with an error, whose word is then the status, the
    /// bottom one as it ends with success.
    pub fn solve<R: RefStore>(
        &mut self,
        block: u16,
        control: Ref,
        area: Ref,
        length: u16,
        inputs: u8,
        ram: &mut R,
    ) -> u8
        requires block { IsBlock self.old block }
        requires control { HasRegisters (R.contents ram.old) control control_block }
        requires area { HasRegisters (R.contents ram.old) area length }
        ensures { SolvesBlock (block_solved self.old block
            (record { control = control; area = area; room = length }) (nodes_of inputs)
            (R.contents ram.old)) self.new result (R.contents ram.old) (R.contents ram.new) }
    {
        let site = Site {
            control,
            area,
            room: length,
        };
        self.blocks
            .solve(block, site, NodePower::of_bits(inputs), ram)
    }
}
