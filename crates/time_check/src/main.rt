//! Reads a journal, and says whether each station is in time with its ring, or where one stands
//! still. For the scripts of plants/.
#![tactic(auto)]

use anyhow::Result;
use journal_text::read_journal;
use std::alloc::Global;
use std::io;
use std::io::Print;
use time_judge::first_standstill;

fn print_verdict(rt: &impl Print, alloc: Global, journal: &[u8]) -> Result<()> {
    let joint = read_journal(alloc, journal)?;
    match first_standstill(alloc, &joint)? {
        None => println!(rt; "in time")?,
        Some(at) => println!(rt; "node {} {} {}", at.node, at.entries, at.place)?,
    }
    Ok(())
}

fn main(rt: HostRuntime) -> Result<()> {
    let text = io::read_to_string(rt.alloc(), rt.reader())?;
    print_verdict(&rt, rt.alloc(), text.as_bytes())
}
