//! Runs of the plant READ2.
ghost use Rattle.std.specs.Prelude.{◌≤◌};
ghost use Rattle.plant_types.specs.Limits.{most_scans};

use crate::read2::{AS_IT_IS, Change, read2};
use controller_core::Entry;
use joint_history::Joint;
use mstr_block::MstrResult;
use plant_types::{Fate, PowerRow};
use ring_core::{FrameKind, Heard, LeaveCause, RingEntry};
use serial_run::{Turn, run, turns};
use std::alloc::{AllocError, Global};

/// A letter for each entry of a controller.
fn controller_letter(entry: &Entry) -> u8 {
    match entry {
        Entry::Begin => b'B',
        Entry::Input(_) => b'I',
        Entry::Solve(_) => b'S',
        Entry::Output { .. } => b'O',
        Entry::End => b'E',
        Entry::Fail => b'X',
        Entry::Dark => b'K',
        Entry::Collect(_) => b'L',
        Entry::Peer { .. } => b'P',
        Entry::Off { .. } => b'N',
        Entry::Finish { result, .. } => match result {
            MstrResult::Good(_) => b'F',
            MstrResult::Bad(_) => b'f',
        },
    }
}

/// Who made an entry of the ring, and a letter for it.
fn ring_letter(entry: &RingEntry) -> (u8, u8) {
    match entry {
        RingEntry::Post { node, frame } => match frame.kind {
            FrameKind::Request => (*node, b'Q'),
            FrameKind::Reply => (*node, b'R'),
        },
        RingEntry::Send { node, heard } => match heard {
            Heard::Acked => (*node, b'A'),
            Heard::Silent => (*node, b'S'),
            Heard::Busy => (*node, b'B'),
        },
        RingEntry::Take { node, .. } => (*node, b'T'),
        RingEntry::Local { node, .. } => (*node, b'O'),
        RingEntry::GiveUp { id, .. } => (id.node, b'G'),
        RingEntry::Pass { node, done, .. } => (*node, if *done { b'd' } else { b'n' }),
        RingEntry::Leave { node, cause } => match cause {
            LeaveCause::Ended => (*node, b'E'),
            LeaveCause::Spent => (*node, b'X'),
            LeaveCause::Down(_) => (*node, b'D'),
        },
        RingEntry::Join { node } => (*node, b'J'),
    }
}

fn push_controller(text: &mut Vec<u8>, entries: &[Entry]) -> Result<(), AllocError> {
    for entry in entries {
        text.push(controller_letter(entry))?;
    }
    text.push(b' ')?;
    Ok(())
}

fn push_ring(text: &mut Vec<u8>, entries: &[RingEntry]) -> Result<(), AllocError> {
    for entry in entries {
        let (node, letter) = ring_letter(entry);
        text.push(if node == 2 { b'2' } else { b'5' })?;
        text.push(letter)?;
    }
    Ok(())
}

/// The letters of both controllers and of the rings.
fn letters(alloc: Global, joint: &Joint) -> Result<Vec<u8>, AllocError> {
    let mut text = Vec::new(alloc);
    for log in joint.controllers.as_slice() {
        push_controller(&mut text, log.entries.as_slice())?;
    }
    for ring in joint.rings.as_slice() {
        push_ring(&mut text, ring.entries.as_slice())?;
    }
    Ok(text)
}

fn turned(alloc: Global, change: Change, scans: u32, order: &[Turn]) -> Result<Joint, AllocError>
    requires { scans ≤ most_scans }
{
    let plant = read2(alloc, change)?;
    turns(alloc, &plant, scans, order)
}

/// The letters of a joint history that is made by turns.
fn turned_letters(
    alloc: Global,
    change: Change,
    scans: u32,
    order: &[Turn],
) -> Result<Vec<u8>, AllocError>
    requires { scans ≤ most_scans }
{
    let joint = turned(alloc, change, scans, order)?;
    letters(alloc, &joint)
}

fn ran(alloc: Global, change: Change, scans: u32) -> Result<Joint, AllocError>
    requires { scans ≤ most_scans }
{
    let plant = read2(alloc, change)?;
    run(alloc, &plant, scans)
}

/// The letters of a serial run.
fn ran_letters(alloc: Global, change: Change, scans: u8) -> Result<Vec<u8>, AllocError> {
    let joint = ran(alloc, change, u32::from(scans))?;
    letters(alloc, &joint)
}

#[test]
fn turns_come_in_any_order(rt: HostRuntime) -> Result<(), AllocError> {
    let alloc = rt.alloc();
    let scan = [Turn::Step(2), Turn::Step(2), Turn::Step(2), Turn::Hold(0)];
    let text = turned_letters(alloc, AS_IT_IS, 2, &scan)?;
    assert!(rt; text.as_slice() == b"BSEL  2Q2A2n".as_slice());

    // No serial run begins with the token, steps by halves or knows node 9 or network 9.
    let order = [
        Turn::Hold(0),
        Turn::Hold(0),
        Turn::Step(5),
        Turn::Step(9),
        Turn::Hold(9),
        Turn::Visit(2),
        Turn::Step(2),
        Turn::Step(2),
        Turn::Step(2),
        Turn::Hold(0),
        Turn::Step(5),
        Turn::Hold(0),
        Turn::Step(5),
        Turn::Step(5),
        Turn::Hold(0),
        Turn::Hold(0),
        Turn::Hold(0),
        Turn::Hold(0),
        Turn::Hold(0),
        Turn::Visit(2),
    ];
    let text = turned_letters(alloc, AS_IT_IS, 1, &order)?;
    assert!(rt; text.as_slice() == b"BSELF BSPE 2n5n2Q2A2n5T5R5A5n2T2d5d2E5E".as_slice());
    Ok(())
}

#[test]
fn a_node_that_has_left_ends_its_calls(rt: HostRuntime) -> Result<(), AllocError> {
    let change = Change {
        holds: 1,
        ..AS_IT_IS
    };
    let order = [
        Turn::Hold(0),
        Turn::Hold(0),
        Turn::Hold(0),
        Turn::Hold(0),
        Turn::Step(2),
        Turn::Step(2),
        Turn::Step(2),
        Turn::Visit(5),
        Turn::Visit(2),
        Turn::Visit(2),
    ];
    let text = turned_letters(rt.alloc(), change, 2, &order)?;
    assert!(rt; text.as_slice() == b"BSELf  2n5n2X5X2Q2G".as_slice());
    Ok(())
}

/// READ2 with one change each, how many scans it runs, and its letters.
fn runs() -> [(Change, u8, &'static [u8]); 6] {
    let nobody = Change { to: 9, ..AS_IT_IS };
    let own = Change { to: 2, ..AS_IT_IS };
    let silent = Change {
        fates: &[Fate::A],
        ..AS_IT_IS
    };
    let again = Change {
        fates: &[Fate::A, Fate::D],
        ..AS_IT_IS
    };
    let spent = Change {
        holds: 1,
        ..AS_IT_IS
    };
    [
        (
            AS_IT_IS,
            2,
            b"BSELFBSE BSEPBSE 2Q2A2n5T5R5A5n2T2n5n2d5d2E5E",
        ),
        (nobody, 2, b"BSELfBSE BSEBSE 2Q2S2S2S2G2n5n2n5n2d5d2E5E"),
        (own, 2, b"BSEBSE BSEBSE 2n5n2n5n2d5d2E5E"),
        (
            silent,
            2,
            b"BSELfBSE BSEPBSE 2Q2S2S2S2G2n5T5R5S5S5S5n2n5n2d5d2E5E",
        ),
        (
            again,
            2,
            b"BSELFBSE BSEPBSE 2Q2S2A2n5T5R5S5A5n2T2n5n2d5d2E5E",
        ),
        (
            spent,
            4,
            b"BSELFBSEBSELfBSE BSEPBSEBSEBSE 2Q2A2n5T5R5A5n2T2X5X2Q2G",
        ),
    ]
}

#[test]
fn a_run_brings_words_loses_frames_and_spends_passes(rt: HostRuntime) -> Result<(), AllocError> {
    for (change, scans, text) in runs() {
        let ran = ran_letters(rt.alloc(), change, scans)?;
        assert!(rt; ran.as_slice() == text);
    }
    Ok(())
}

/// Power fails right as the first scan begins.
const AT_ONCE: &[PowerRow] = &[PowerRow {
    scan: 1,
    row: 0,
    dark: 0,
}];

/// Power fails right as the second scan begins, and the third is dark.
const FOR_TWO: &[PowerRow] = &[PowerRow {
    scan: 2,
    row: 0,
    dark: 1,
}];

#[test]
fn a_request_is_lost_as_power_fails(rt: HostRuntime) -> Result<(), AllocError> {
    let change = Change {
        power: AT_ONCE,
        ..AS_IT_IS
    };
    let text = ran_letters(rt.alloc(), change, 2)?;
    let all = text.as_slice();
    assert!(rt; all.starts_with(b"BSELBSEf BXBSE 2Q2A2n5D2n5J2n5d2n5d2n"));
    assert!(rt; all.ends_with(b"5d2n5d2G2d5E2E"));
    assert!(rt; all.len() == 15 + 2 * 46);
    Ok(())
}

#[test]
fn a_node_comes_back_where_power_does(rt: HostRuntime) -> Result<(), AllocError> {
    let change = Change {
        power: FOR_TWO,
        ..AS_IT_IS
    };
    let text = ran_letters(rt.alloc(), change, 4)?;
    let controllers = b"BSELFBSEBSELfBSE BSEPBXKBSE ";
    let ring = b"2Q2A2n5T5R5A5n2T2n5n2n5D2n2Q2S2S2S2G2n2n5J2d5d2E5E";
    assert!(rt; text.as_slice().starts_with(controllers));
    assert!(rt; text.as_slice().ends_with(ring));
    assert!(rt; text.as_slice().len() == controllers.len() + ring.len());
    Ok(())
}
