//! Writers, one after another or in threads.
ghost use Rattle.std.specs.Prelude.{◌≡◌, ◌<◌, All, length};
ghost use Rattle.std.specs.Thread.{IsSync};
ghost use Rattle.gated_tape.specs.Runs.{card_of, IsFreshWriter, HasEnded, EachWriterRan};

use crate::refusals::PutNo;
use crate::sides::Side;
use crate::workers::write_both;
use std::thread::{Threads, join_mut};

/// A node that writes through two sides of its own, and how its work ended.
pub struct Writer<S> {
    pub one: S,
    pub two: S,
    pub node: u32,
    pub ended: Result<(), PutNo>,
}

fn run<S: Side>(writer: &mut Writer<S>, count: u64)
    requires { IsFreshWriter S.frame S.known writer.old }
    ensures ended { HasEnded S.frame S.known count writer.new }
    ensures card { card_of S.frame S.known writer.new ≡ card_of S.frame S.known writer.old }
{
    writer.ended = write_both(&mut writer.one, &mut writer.two, writer.node, count);
}

/// Runs the writers in as many threads, or one after another where a single thread is left.
#[cycle(running)]
#[tactic(auto, using(crate::proofs::Ran::ran_none, crate::proofs::Ran::ran_one))]
pub fn run_each<S: Side + Send, R: Threads + Sync>(
    rt: &R,
    writers: &mut [Writer<S>],
    threads: u32,
    count: u64,
)
    requires { All (IsFreshWriter S.frame S.known) writers.old }
    ensures { EachWriterRan S.frame S.known count writers.old writers.new }
{
    if writers.is_empty() {
        return;
    }
    if writers.len() == 1 {
        run(&mut writers[0], count);
        return;
    }
    let (front, back) = writers.split_at_mut(writers.len() / 2);
    if threads < 2 {
        run_each(rt, front, threads, count);
        run_each(rt, back, threads, count);
        return;
    }
    run_halves(rt, front, back, threads / 2, count);
}

#[cycle(running)]
fn run_halves<S: Side + Send, R: Threads + Sync>(
    rt: &R,
    front: &mut [Writer<S>],
    back: &mut [Writer<S>],
    threads: u32,
    count: u64,
)
    requires fresh { All (IsFreshWriter S.frame S.known) front.old
        × All (IsFreshWriter S.frame S.known) back.old }
    requires shorter { (0 < length front.old) × (0 < length back.old) }
    ensures front { EachWriterRan S.frame S.known count front.old front.new }
    ensures back { EachWriterRan S.frame S.known count back.old back.new }
{
    join_mut(
        rt,
        &mut ||
            requires { IsSync R.row × All (IsFreshWriter S.frame S.known) front.now }
            ensures { EachWriterRan S.frame S.known count front.entry.now front.exit.now }
        { run_each(rt, front, threads, count) },
        &mut ||
            requires { IsSync R.row × All (IsFreshWriter S.frame S.known) back.now }
            ensures { EachWriterRan S.frame S.known count back.entry.now back.exit.now }
        { run_each(rt, back, threads, count) },
    );
}
