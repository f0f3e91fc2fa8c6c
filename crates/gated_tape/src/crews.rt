//! A crew of writers on two tapes, each behind a gate.
ghost use Rattle.std.specs.Prelude.{◌≡◌, [], All, Err, IfOk, OnOk, length, vec_len, vec_capacity};
ghost use Rattle.std.specs.Prelude.{false};
ghost use Rattle.turn_gate.specs.Known.{first_pass, is_among};
ghost use Rattle.gated_tape.specs.declared.refusals.PutNo.TheVariants.{Full};
ghost use Rattle.gated_tape.specs.Sides.{gated_frame};
ghost use Rattle.gated_tape.specs.Runs.{HasEnded};
ghost use Rattle.gated_tape.specs.Crews.{count_down, seen_of, cards_of, no_refusal, first_refusal};
ghost use Rattle.gated_tape.specs.Crews.{IsCardOver, AreDealt, AreGathering, AreAmong, HasGiven};
ghost use Rattle.gated_tape.specs.Crews.{IsGathered};
ghost use Rattle.gated_tape.specs.Crews.{HasHeardFull, HasCountsOf, AreByWriters, AreWritten};
ghost use Rattle.gated_tape.specs.Crews.{IsOneFull};

use crate::cells::TapeCell;
use crate::gated::GatedSide;
use crate::refusals::PutNo;
use crate::runs::{Writer, run_each};
use crate::tapes::Tape;
use std::alloc::{AllocError, Global};
use std::sync::Wait;
use std::thread::Threads;
use turn_gate::{Gate, Pass};

/// A writer over two gates.
type GatedWriter<'a, R> = Writer<GatedSide<'a, R>>;

/// A pass of each gate.
struct Passes {
    one: Pass<TapeCell>,
    two: Pass<TapeCell>,
}

/// Gives each writer a pass of each gate, and a side of its own over each.
fn deal<'a, R: Wait>(
    rt: &'a R,
    one: &'a Gate<TapeCell>,
    two: &'a Gate<TapeCell>,
    passes: Passes,
    writers: u32,
    mut room: Vec<GatedWriter<'a, R>>,
) -> (Passes, Vec<GatedWriter<'a, R>>)
    requires opening { (one.now.name.opening ≡ []) × (two.now.name.opening ≡ []) }
    requires one { passes.one ≡ first_pass one.now.name }
    requires two { passes.two ≡ first_pass two.now.name }
    requires room { (room.items ≡ []) × (vec_len room ≡ 0) × (vec_capacity room ≡ writers) }
    ensures one { result.0.one ≡ record (first_pass one.now.name) { given = count_down writers } }
    ensures two { result.0.two ≡ record (first_pass two.now.name) { given = count_down writers } }
    ensures sides { AreDealt one.now two.now (count_down writers) result.1.items }
{
    let Passes {
        one: mut zero,
        two: mut second_zero,
    } = passes;
    for index in 0..writers {
        let node = index + 1;
        let (giver, pass) = one.split(zero, node);
        zero = giver;
        let (second_giver, second_pass) = two.split(second_zero, node);
        second_zero = second_giver;
        room.push_reserved(Writer {
            one: GatedSide::new(rt, one, pass),
            two: GatedSide::new(rt, two, second_pass),
            node,
            ended: Ok(()),
        });
    }
    let passes = Passes {
        one: zero,
        two: second_zero,
    };
    (passes, room)
}

fn sooner(first: Result<(), PutNo>, later: Result<(), PutNo>) -> Result<(), PutNo>
    ensures { result ≡ first_refusal first later }
{
    match first {
        Ok(()) => later,
        Err(no) => Err(no),
    }
}

/// Puts the writers' passes back into passes 0, and answers the first refusal.
fn gather<'a, R: Wait>(
    one: &'a Gate<TapeCell>,
    two: &'a Gate<TapeCell>,
    passes: Passes,
    count: u64,
    mut writers: Vec<GatedWriter<'a, R>>,
) -> (Passes, Result<(), PutNo>)
    requires opening { (one.now.name.opening ≡ []) × (two.now.name.opening ≡ []) }
    requires ended { All (HasEnded gated_frame seen_of count) writers.items }
    requires at { All (IsCardOver one.now two.now) (cards_of writers.items) }
    requires passes { AreGathering one.now two.now count no_refusal writers.items
        passes.one passes.two }
    requires positive { is_among 0 passes.one.given ≡ false }
    ensures passes { AreGathering one.now two.now count result.1 [] result.0.one result.0.two }
    ensures one { result.0.one.given ≡ passes.one.given }
    ensures two { result.0.two.given ≡ passes.two.given }
{
    let Passes {
        one: mut zero,
        two: mut second_zero,
    } = passes;
    let mut ended = Ok(());
    while let Some(writer) = writers.pop() {
        let Writer {
            one: side,
            two: second_side,
            node: _,
            ended: answer,
        } = writer;
        zero = one.join(zero, side.into_pass());
        second_zero = two.join(second_zero, second_side.into_pass());
        ended = sooner(ended, answer);
    }
    writers.destroy_empty();
    let passes = Passes {
        one: zero,
        two: second_zero,
    };
    (passes, ended)
}

/// Lets the writers put their marks through the gates. Where there is no room for them, none
/// writes.
fn through_gates<R: Threads + Wait + Sync>(
    rt: &R,
    alloc: Global,
    one: &Gate<TapeCell>,
    two: &Gate<TapeCell>,
    passes: Passes,
    crew: Crew,
) -> (Passes, Result<(), PutNo>)
    requires opening { (one.now.name.opening ≡ []) × (two.now.name.opening ≡ []) }
    requires one { passes.one ≡ first_pass one.now.name }
    requires two { passes.two ≡ first_pass two.now.name }
    ensures passes { AreGathering one.now two.now crew.count result.1 [] result.0.one result.0.two }
    ensures one { HasGiven crew.writers result.1 result.0.one }
    ensures two { HasGiven crew.writers result.1 result.0.two }
{
    let Ok(room) = Vec::with_capacity(alloc, crew.writers as usize) else {
        return (passes, Err(PutNo::NoMemory));
    };
    let (passes, mut writers) = deal(rt, one, two, passes, crew.writers, room);
    run_each(rt, writers.as_mut_slice(), crew.threads, crew.count);
    gather(one, two, passes, crew.count, writers)
}

/// How many writers put how many marks each on either of two tapes, how many marks a tape takes,
/// and how many threads there may be.
#[derive(Clone, Copy)]
pub struct Crew {
    pub writers: u32,
    pub count: u64,
    pub limit: u64,
    pub threads: u32,
}

/// Two tapes that a crew wrote on, and the first refusal that a writer met.
#[derive(Drop)]
pub struct Written {
    pub first: Tape,
    pub second: Tape,
    pub ended: Result<(), PutNo>,
}

/// Lets writers 1 and up put their marks on two new tapes, each through a pass of either gate. With
/// too little memory for the gates there is no tape.
pub fn write_in_turns<R: Threads + Wait + Sync>(
    rt: &R,
    alloc: Global,
    crew: Crew,
) -> Result<Written, AllocError>
    ensures first_limit { IfOk result (λ w. w.first.limit ≡ crew.limit) }
    ensures second_limit { IfOk result (λ w. w.second.limit ≡ crew.limit) }
    ensures first_writers { IfOk result (λ w. AreByWriters crew.writers w.first.marks) }
    ensures second_writers { IfOk result (λ w. AreByWriters crew.writers w.second.marks) }
    ensures first { IfOk result (λ w.
        OnOk w.ended (AreWritten crew.writers crew.count w.first.marks)) }
    ensures second { IfOk result (λ w.
        OnOk w.ended (AreWritten crew.writers crew.count w.second.marks)) }
    ensures full { IfOk result (λ w.
        w.ended ≡ Err Full → IsOneFull crew.limit w.first.marks w.second.marks) }
{
    let (one, zero) = open(alloc, crew.limit)?;
    let Ok((two, second_zero)) = open(alloc, crew.limit) else {
        let _ = one.close(zero);
        return Err(AllocError);
    };
    let passes = Passes {
        one: zero,
        two: second_zero,
    };
    let (passes, ended) = through_gates(rt, alloc, &one, &two, passes, crew);
    let Passes {
        one: zero,
        two: second_zero,
    } = passes;
    let first = close_tape(one, zero, crew);
    let second = close_tape(two, second_zero, crew);
    Ok(Written {
        first,
        second,
        ended,
    })
}

/// A gate round a new tape, and its pass 0.
fn open(alloc: Global, limit: u64) -> Result<(Gate<TapeCell>, Pass<TapeCell>), AllocError>
    ensures opening { IfOk result (λ g. g.0.name.opening ≡ []) }
    ensures fixed { IfOk result (λ g. g.0.fixed ≡ limit) }
    ensures pass { IfOk result (λ g. g.1 ≡ first_pass g.0.name) }
{
    Gate::new(alloc, TapeCell::new(Tape::new(alloc, limit)))
}

/// Takes the tape out of its gate.
fn close_tape(gate: Gate<TapeCell>, pass: Pass<TapeCell>, crew: Crew) -> Tape
    requires opening { gate.name.opening ≡ [] }
    requires gathered { IsGathered gate.name pass }
    requires within { AreAmong pass.given (count_down crew.writers) }
    ensures limit { result.limit ≡ gate.fixed }
    ensures writers { AreByWriters crew.writers result.marks }
    ensures counts { HasCountsOf result.marks pass }
    ensures full { HasHeardFull gate.fixed pass → length result.marks ≡ gate.fixed }
{
    let tape = gate.close(pass).into_inner();
    let _ = tape.marks();
    tape
}
