//! A letter for each entry.
use bridge_relay::BridgeEntry;
use ring_core::{FrameKind, RingEntry};
use std::alloc::{AllocError, Global};

/// A Request or a Reply posted, a Send, a Take, an operation of the port, a call that is given up,
/// a Pass that says done or not, a Leave, a Join.
fn ring_letter(entry: &RingEntry) -> u8 {
    match entry {
        RingEntry::Post { frame, .. } => match frame.kind {
            FrameKind::Request => b'P',
            FrameKind::Reply => b'p',
        },
        RingEntry::Send { .. } => b'S',
        RingEntry::Take { .. } => b'T',
        RingEntry::Local { .. } => b'O',
        RingEntry::GiveUp { .. } => b'G',
        RingEntry::Pass { done: true, .. } => b'd',
        RingEntry::Pass { done: false, .. } => b'n',
        RingEntry::Leave { .. } => b'L',
        RingEntry::Join { .. } => b'J',
    }
}

/// An Accept, a Forward, a Finish, a Back, a Gone, as a journal has them.
fn bridge_letter(entry: &BridgeEntry) -> u8 {
    match entry {
        BridgeEntry::Accept { .. } => b'T',
        BridgeEntry::Forward { .. } => b'U',
        BridgeEntry::Finish { .. } => b'A',
        BridgeEntry::Back { .. } => b'V',
        BridgeEntry::Gone { .. } => b'G',
    }
}

/// The letters of a ring's entries.
pub(crate) fn ring_letters(alloc: Global, entries: &[RingEntry]) -> Result<Vec<u8>, AllocError> {
    let mut text = Vec::new(alloc);
    for entry in entries {
        text.push(ring_letter(entry))?;
    }
    Ok(text)
}

/// The letters of a bridge's entries.
pub(crate) fn bridge_letters(
    alloc: Global,
    entries: &[BridgeEntry],
) -> Result<Vec<u8>, AllocError> {
    let mut text = Vec::new(alloc);
    for entry in entries {
        text.push(bridge_letter(entry))?;
    }
    Ok(text)
}
