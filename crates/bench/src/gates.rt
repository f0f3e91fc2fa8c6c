//! How long a stay in a gate takes with 1, 2 and 4 threads: enter, one mark put, leave.
use anyhow::Result;
use gated_tape::{Crew, write_in_turns};
use std::alloc::Global;
use std::io::Print;
use std::sync::Wait;
use std::thread::Threads;
use std::time::{Clock, Instant};

/// The stays of each thread in either gate.
const STAYS: u64 = 100_000;

/// Prints the nanoseconds per stay.
pub fn print_times<R: Clock + Print + Threads + Wait + Sync>(rt: &R, alloc: Global) -> Result<()> {
    println!(rt; "threads  nanoseconds per stay")?;
    for threads in [1, 2, 4] {
        let each = time_stays(rt, alloc, threads)?;
        println!(rt; "{threads:7}  {each:20}")?;
    }
    Ok(())
}

fn time_stays<R: Clock + Threads + Wait + Sync>(
    rt: &R,
    alloc: Global,
    threads: u32,
) -> Result<u128> {
    let start = Instant::now(rt)?;
    let crew = Crew {
        writers: threads,
        count: STAYS,
        limit: u64::MAX,
        threads,
    };
    let written = write_in_turns(rt, alloc, crew)?;
    let spent = start.elapsed(rt)?.as_nanos();
    let stays = written.first.marks().len() as u128 + written.second.marks().len() as u128;
    Ok(spent / stays.max(1))
}
