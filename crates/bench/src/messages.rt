//! What message blocks take: their starts, taking their calls, the ends of these, and the solves
//! that end the blocks.
ghost use Rattle.std.specs.Prelude.{◌≡◌, true};
ghost use Rattle.std.specs.Bool.{OnTrue};
ghost use Rattle.plant_types.specs.Store.{HasRegisters};

use anyhow::{Result, ensure};
use mstr_block::{CallId, MstrBank, MstrResult};
use plant_types::{MapRam, Ref, RefKind, RefStore, ref_after};
use std::alloc::Global;
use std::io::Print;
use std::time::{Clock, Instant};

/// How often all blocks go through a call.
const ROUNDS: u32 = 2000;

/// Clears the own statistics; its calls wait for no path.
const CLEAR_LOCAL: u16 = 4;

/// The power that enables a block.
const ENABLE: u8 = 1;

/// A bank with the registers of its blocks, which all have one control block.
#[derive(Drop)]
struct Desk {
    bank: MstrBank,
    ram: MapRam,
    calls: Vec<CallId>,
    blocks: u16,
}

/// The register of a control block from which it stands.
fn first_register() -> Ref
    ensures { result ≡ record { kind = RefKind.Register; number = 1 } }
{
    Ref {
        kind: RefKind::Register,
        number: 1,
    }
}

/// Whether so many registers stand from one on.
fn has_run(ram: &MapRam, at: Ref, count: u16) -> bool
    ensures { OnTrue result (HasRegisters ram.now at count) }
{
    if at.kind != RefKind::Register || at.number > 9985 || count > 9985 - at.number {
        return false;
    }
    for i in 0..count {
        if !ram.has(ref_after(at, i)) {
            return false;
        }
    }
    true
}

impl Desk {
    fn new(alloc: Global, blocks: u16) -> Result<Desk> {
        let mut ram = MapRam::new(alloc, 0, 0, 0, 9)?;
        let control = first_register();
        ensure!(ram.has(control), "there is a control block");
        ram.set_word(control, CLEAR_LOCAL);
        Ok(Desk {
            bank: MstrBank::new(alloc, 1, blocks, false)?,
            ram,
            calls: Vec::new(alloc),
            blocks,
        })
    }

    /// Solves each block once; the registers are tested too.
    fn solve(&mut self) -> Result<()> {
        let control = first_register();
        for block in 1..=self.blocks {
            ensure!(has_run(&self.ram, control, 9), "there is a control block");
            ensure!(has_run(&self.ram, control, 1), "there is a data area");
            ensure!(self.bank.has(block), "there is the block");
            self.bank
                .solve(block, control, control, 1, ENABLE, &mut self.ram);
        }
        Ok(())
    }

    /// Takes the started calls.
    fn take(&mut self) -> Result<()> {
        for _ in 0..self.blocks {
            if let Some(call) = self.bank.take_started() {
                self.calls.push(call.id)?;
            }
        }
        Ok(())
    }

    /// Ends the calls that were taken; it is tested that they are out.
    fn finish(&mut self) -> Result<()> {
        for _ in 0..self.blocks {
            if let Some(id) = self.calls.pop() {
                ensure!(self.bank.is_out(id), "the call is out");
                self.bank.finish(id, MstrResult::Bad(0));
            }
        }
        Ok(())
    }
}

/// The nanoseconds of each part, over all rounds.
#[derive(Clone, Copy)]
struct Spent {
    starts: u128,
    takes: u128,
    finishes: u128,
    ends: u128,
}

fn round<R: Clock>(rt: &R, desk: &mut Desk) -> Result<Spent> {
    let start = Instant::now(rt)?;
    desk.solve()?;
    let starts = start.elapsed(rt)?.as_nanos();
    desk.take()?;
    let takes = start.elapsed(rt)?.as_nanos();
    desk.finish()?;
    let finishes = start.elapsed(rt)?.as_nanos();
    desk.solve()?;
    let ends = start.elapsed(rt)?.as_nanos();
    Ok(Spent {
        starts,
        takes: takes.saturating_sub(starts),
        finishes: finishes.saturating_sub(takes),
        ends: ends.saturating_sub(finishes),
    })
}

impl Spent {
    fn plus(self, more: Spent) -> Spent {
        Spent {
            starts: self.starts.saturating_add(more.starts),
            takes: self.takes.saturating_add(more.takes),
            finishes: self.finishes.saturating_add(more.finishes),
            ends: self.ends.saturating_add(more.ends),
        }
    }
}

/// Prints, for so many blocks, the nanoseconds of each part per block.
pub fn print_times<R: Clock + Print>(rt: &R, alloc: Global, blocks: u16) -> Result<()> {
    ensure!(blocks > 0, "there is a block at least");
    let mut desk = Desk::new(alloc, blocks)?;
    let mut spent = Spent {
        starts: 0,
        takes: 0,
        finishes: 0,
        ends: 0,
    };
    for _ in 0..ROUNDS {
        spent = spent.plus(round(rt, &mut desk)?);
    }
    let count = u128::from(ROUNDS) * u128::from(blocks);
    let starts = spent.starts / count;
    let takes = spent.takes / count;
    let finishes = spent.finishes / count;
    let ends = spent.ends / count;
    println!(rt; "{blocks} {starts} {takes} {finishes} {ends}")?;
    Ok(())
}
