//! Letters for what two controllers and the ring note where power fails.
use controller_core::Entry;
use mstr_block::MstrResult;
use ring_core::{FrameKind, Heard, LeaveCause, RingEntry};
use std::alloc::{AllocError, Global};

/// A letter for an event: Begin, Solve, End, a failure (X), Dark (K), Collect, a request answered
/// (P) or taken without power (N), and a Finish that is good (G), after no answer (f) or of a node
/// that is not there (F); `?` for another.
fn event_letter(entry: &Entry) -> u8 {
    match entry {
        Entry::Begin => b'B',
        Entry::Solve(_) => b'S',
        Entry::End => b'E',
        Entry::Fail => b'X',
        Entry::Dark => b'K',
        Entry::Collect(_) => b'C',
        Entry::Peer { .. } => b'P',
        Entry::Off { .. } => b'N',
        Entry::Finish { result, .. } => match result {
            MstrResult::Good(_) => b'G',
            MstrResult::Bad(0x6101) => b'f',
            MstrResult::Bad(0x6103) => b'F',
            MstrResult::Bad(_) => b'?',
        },
        _ => b'?',
    }
}

/// Puts a letter for each event after a text.
pub(crate) fn put_events(text: &mut Vec<u8>, entries: &[Entry]) -> Result<(), AllocError> {
    for entry in entries {
        text.push(event_letter(entry))?;
    }
    Ok(())
}

/// The digit of node 2 or 5.
const fn digit(node: u8) -> u8 {
    match node {
        2 => b'2',
        5 => b'5',
        _ => b'?',
    }
}

/// A letter for a Leave: for the first failure (D), for the second (E), or for good (L).
const fn leave_letter(cause: LeaveCause) -> u8 {
    match cause {
        LeaveCause::Down(1) => b'D',
        LeaveCause::Down(2) => b'E',
        LeaveCause::Down(_) => b'?',
        LeaveCause::Ended | LeaveCause::Spent => b'L',
    }
}

/// The node and a letter for an entry: a Request (P) or Reply (p) posted, a Send that was
/// acknowledged (A) or not (s), a Take, a Local (O), a call given up after no answer (g) or at a
/// node that is not there (G), a Pass that says done (d) or not (n), a Leave, a Join.
fn entry_letters(entry: &RingEntry) -> (u8, u8) {
    match entry {
        RingEntry::Post { node, frame } => match frame.kind {
            FrameKind::Request => (*node, b'P'),
            FrameKind::Reply => (*node, b'p'),
        },
        RingEntry::Send { node, heard } => match heard {
            Heard::Acked => (*node, b'A'),
            Heard::Busy | Heard::Silent => (*node, b's'),
        },
        RingEntry::Take { node, .. } => (*node, b'T'),
        RingEntry::Local { node, .. } => (*node, b'O'),
        RingEntry::GiveUp { id, word } => match *word {
            0x6101 => (id.node, b'g'),
            0x6103 => (id.node, b'G'),
            _ => (id.node, b'?'),
        },
        RingEntry::Pass { node, done, .. } => (*node, if *done { b'd' } else { b'n' }),
        RingEntry::Leave { node, cause } => (*node, leave_letter(*cause)),
        RingEntry::Join { node } => (*node, b'J'),
    }
}

/// Puts the node and a letter for each entry after a text.
pub(crate) fn put_entries(text: &mut Vec<u8>, entries: &[RingEntry]) -> Result<(), AllocError> {
    for entry in entries {
        let (node, letter) = entry_letters(entry);
        text.push(digit(node))?;
        text.push(letter)?;
    }
    Ok(())
}

/// The ring's entries, then a bar and the events of each controller.
pub(crate) fn text_of(
    alloc: Global,
    ring: &[RingEntry],
    two: &[Entry],
    five: &[Entry],
) -> Result<Vec<u8>, AllocError> {
    let mut text = Vec::new(alloc);
    put_entries(&mut text, ring)?;
    text.push(b'|')?;
    put_events(&mut text, two)?;
    text.push(b'|')?;
    put_events(&mut text, five)?;
    Ok(text)
}
