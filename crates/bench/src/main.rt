//! Times of the crates that a run of the program does not show: a stay in a gate, a request, the
//! entries of a ring, and message blocks. A word picks what is timed.
#![tactic(auto)]

mod gates;
mod messages;
mod requests;
mod rings;

use anyhow::{Context, Result};
use std::env;
use std::io::Print;

fn main(rt: HostRuntime) -> Result<()> {
    let mut words = env::args(&rt)?.skip(1);
    match words.next() {
        Some(word) if word.as_str() == "gate" => gates::print_times(&rt, rt.alloc()),
        Some(word) if word.as_str() == "modbus" => requests::print_times(&rt, rt.alloc()),
        Some(word) if word.as_str() == "ring" => {
            let members = words
                .next()
                .context("how many members?")?
                .as_str()
                .parse::<u8>()?;
            let entries = words
                .next()
                .context("how many entries?")?
                .as_str()
                .parse::<u32>()?;
            rings::print_time(&rt, rt.alloc(), members, entries)
        }
        Some(word) if word.as_str() == "mstr" => {
            let blocks = words
                .next()
                .context("how many blocks?")?
                .as_str()
                .parse::<u16>()?;
            messages::print_times(&rt, rt.alloc(), blocks)
        }
        _ => print_words(&rt),
    }
}

fn print_words(rt: &impl Print) -> Result<()> {
    println!(rt; "bench: `gate` prints nanoseconds per stay in a gate")?;
    println!(rt; "bench: `modbus` prints requests answered in a second")?;
    println!(rt;
        "bench: `ring MEMBERS ENTRIES` prints the entries made and the nanoseconds taken"
    )?;
    println!(rt;
        "bench: `mstr BLOCKS` prints nanoseconds a block to start, take, finish and end a call"
    )?;
    Ok(())
}
