//! The summary of lists that are made by hand.
use crate::written::{id, new_joint, push_controller, push_ring};
use controller_core::Entry;
use joint_history::Joint;
use mstr_block::MstrResult;
use plant_types::{Block, List, Words};
use ring_core::RingEntry;
use std::alloc::{AllocError, Global};
use summary_text::summary_text;

fn finish(outcome: MstrResult) -> Entry {
    Entry::Finish {
        id: id(2, 1, 1),
        result: outcome,
    }
}

/// A controller with so many segments solved, a call that ended well and two that did not.
fn add_controller(
    alloc: Global,
    joint: &mut Joint,
    node: u8,
    solves: u16,
) -> Result<(), AllocError> {
    let mut entries = List::new(alloc);
    for row in 0..solves {
        entries.push(Entry::Solve(row))?;
    }
    entries.push(finish(MstrResult::Bad(0x6101)))?;
    entries.push(finish(MstrResult::Good(Block::of(&[7]))))?;
    entries.push(Entry::End)?;
    entries.push(finish(MstrResult::Bad(0x6103)))?;
    push_controller(joint, node, entries)
}

/// A ring whose token was passed on so often.
fn add_ring(alloc: Global, joint: &mut Joint, network: u8, passes: u8) -> Result<(), AllocError> {
    let mut entries = List::new(alloc);
    for node in 0..passes {
        let words = Words::of(alloc, &[])?;
        entries.push(RingEntry::Pass {
            node,
            done: false,
            words,
        })?;
        entries.push(RingEntry::GiveUp {
            id: id(2, 1, 1),
            word: 0x6103,
        })?;
    }
    push_ring(joint, network, entries)
}

const SUMMARY: &str = "controllers 2
solves 3
peers 0
good 2
bad 4
passes 5
coils 6
";

#[test]
fn entries_of_all_stations_count(rt: HostRuntime) -> Result<(), AllocError> {
    let alloc = rt.alloc();
    let mut joint = new_joint(alloc);
    add_controller(alloc, &mut joint, 2, 3)?;
    add_controller(alloc, &mut joint, 5, 0)?;
    add_ring(alloc, &mut joint, 1, 3)?;
    add_ring(alloc, &mut joint, 2, 0)?;
    add_ring(alloc, &mut joint, 4, 2)?;
    let text = summary_text(alloc, &joint, 6)?;
    assert!(rt; text.as_slice() == SUMMARY.as_bytes());
    Ok(())
}
