//! Each error word of a start, and which one comes first.
use super::rig::{ACTIVE, ENABLE, ERROR, FIRST, Rig, Stand};
use std::alloc::{AllocError, AllocGlobal};
use std::process::Abort;
use std::test::Fail;

/// A control block and the room of its data area; then the status after a start.
type Row = ([u16; 9], u16, u16);

/// What a start leaves in the status; 1 where the status and the outputs do not fit.
fn status_of(
    rt: &(impl Abort + AllocGlobal),
    routed: bool,
    block: [u16; 9],
    room: u16,
) -> Result<u16, AllocError> {
    let mut rig = Rig::new(rt.alloc(), 1, routed)?;
    rig.fill(rt, 1, &block);
    let outputs = rig.solve(rt, 1, Stand { room, ..FIRST }, ENABLE);
    let status = rig.get(rt, 2);
    let expected = if status == 0 { ACTIVE } else { ERROR };
    Ok(if outputs == expected { status } else { 1 })
}

/// The rows of a station whose routes lead over no bridge.
const ROWS: [Row; 49] = [
    // Operations.
    ([0, 7, 2, 1, 5, 0, 0, 0, 0], 10, 0x2001),
    ([9, 7, 0, 1, 5, 0, 0, 0, 0], 10, 0x2001),
    ([10, 7, 2, 1, 5, 0, 0, 0, 0], 10, 0x2001),
    ([1, 7, 2, 1, 5, 0, 0, 0, 0], 10, 0),
    ([4, 7, 60000, 60000, 0, 9, 9, 9, 9], 1, 0),
    ([8, 7, 60000, 60000, 5, 0, 0, 0, 0], 1, 0),
    // A read of two registers of node 5, as a ladder may have it, and with one register changed.
    ([2, 0, 2, 1, 5, 0, 0, 0, 0], 10, 0),
    ([2, 0, 2, 1, 2, 0, 0, 0, 0], 10, 8201),
    ([2, 0, 101, 1, 5, 0, 0, 0, 0], 10, 8195),
    ([10, 0, 2, 1, 5, 0, 0, 0, 0], 10, 8193),
    // Lengths.
    ([1, 7, 0, 0, 5, 0, 0, 0, 0], 10, 0x2003),
    ([2, 7, 101, 0, 5, 0, 0, 0, 0], 10, 0x2003),
    ([2, 7, 100, 1, 5, 0, 0, 0, 0], 10, 0x2006),
    ([3, 7, 21, 20, 0, 0, 0, 0, 0], 40, 0x2003),
    ([3, 7, 20, 0, 0, 0, 0, 0, 0], 40, 0),
    ([5, 7, 33, 0, 0, 0, 0, 0, 0], 40, 0x2003),
    ([5, 7, 32, 0, 0, 0, 0, 0, 0], 40, 0),
    ([6, 7, 33, 0, 5, 0, 0, 0, 0], 40, 0x2003),
    ([6, 7, 32, 0, 5, 0, 0, 0, 0], 40, 0),
    ([7, 7, 0, 0, 5, 0, 0, 0, 0], 40, 0x2003),
    // Starts.
    ([1, 7, 2, 0, 5, 0, 0, 0, 0], 10, 0x2004),
    ([3, 7, 20, 20, 0, 0, 0, 0, 0], 40, 0x2004),
    ([7, 7, 1, 20, 5, 0, 0, 0, 0], 40, 0x2004),
    ([3, 7, 2, 19, 0, 0, 0, 0, 0], 40, 0x2005),
    ([3, 7, 1, 19, 0, 0, 0, 0, 0], 40, 0),
    ([2, 7, 2, 9984, 5, 0, 0, 0, 0], 10, 0x2005),
    ([2, 7, 1, 9984, 5, 0, 0, 0, 0], 10, 0),
    ([2, 7, 100, 65535, 5, 0, 0, 0, 0], 10, 0x2005),
    ([6, 7, 1, 65535, 5, 0, 0, 0, 0], 10, 0),
    // Areas.
    ([1, 7, 11, 1, 65, 0, 0, 0, 0], 10, 0x2006),
    ([2, 7, 11, 1, 5, 0, 0, 0, 0], 10, 0x2006),
    ([2, 7, 10, 1, 5, 0, 0, 0, 0], 10, 0),
    ([3, 7, 11, 0, 0, 0, 0, 0, 0], 10, 0x2006),
    ([5, 7, 11, 0, 0, 0, 0, 0, 0], 10, 0x2006),
    ([6, 7, 11, 0, 0, 0, 0, 0, 0], 10, 0x2006),
    ([7, 7, 11, 0, 5, 0, 0, 0, 0], 10, 0x2006),
    // Routes.
    ([2, 7, 1, 1, 0, 0, 0, 0, 0], 10, 0x2008),
    ([2, 7, 1, 1, 65, 0, 0, 0, 0], 10, 0x2008),
    ([2, 7, 1, 1, 64, 0, 0, 0, 0], 10, 0),
    ([1, 7, 1, 1, 2, 1, 0, 0, 0], 10, 0x2008),
    ([8, 7, 1, 1, 5, 0, 0, 0, 1], 10, 0x2008),
    ([6, 7, 1, 0, 65, 0, 0, 0, 0], 10, 0x2008),
    ([6, 7, 1, 0, 5, 7, 7, 7, 7], 10, 0),
    // The own address.
    ([1, 7, 1, 1, 2, 1, 0, 0, 0], 10, 0x2008),
    ([1, 7, 1, 1, 2, 0, 0, 0, 0], 10, 0x2009),
    ([2, 7, 2, 1, 2, 0, 0, 0, 0], 10, 0x2009),
    ([7, 7, 1, 0, 2, 0, 0, 0, 0], 10, 0x2009),
    ([8, 7, 1, 0, 2, 0, 0, 0, 0], 10, 0x2009),
    ([6, 7, 1, 0, 2, 0, 0, 0, 0], 10, 0),
];

/// Those of one whose routes may lead over bridges.
const ROUTED_ROWS: [Row; 12] = [
    ([2, 7, 1, 1, 5, 0, 0, 0, 0], 10, 0),
    ([1, 7, 1, 1, 9, 5, 0, 0, 0], 10, 0),
    ([2, 7, 1, 1, 9, 64, 12, 2, 5], 10, 0),
    ([2, 7, 1, 1, 9, 65, 0, 0, 0], 10, 0x2008),
    ([7, 7, 1, 0, 9, 5, 0, 65, 0], 10, 0x2008),
    ([2, 7, 1, 1, 9, 0, 5, 0, 0], 10, 0x2008),
    ([8, 7, 1, 1, 9, 5, 0, 0, 1], 10, 0x2008),
    ([1, 7, 1, 1, 0, 5, 0, 0, 0], 10, 0x2008),
    ([7, 7, 1, 0, 65, 5, 0, 0, 0], 10, 0x2008),
    ([6, 7, 1, 0, 5, 0, 70, 70, 7], 10, 0),
    ([8, 7, 1, 0, 2, 5, 0, 0, 0], 10, 0x2009),
    ([2, 7, 1, 1, 2, 0, 5, 0, 0], 10, 0x2008),
];

fn show(rt: &(impl Abort + AllocGlobal), routed: bool, rows: &[Row]) -> Result<(), Fail> {
    for (block, room, status) in rows {
        assert_eq!(rt; status_of(rt, routed, *block, *room)?, *status, "{block:?}");
    }
    Ok(())
}

#[test]
fn starts_have_their_error_words(rt: HostRuntime) -> Result<(), Fail> {
    show(&rt, false, &ROWS)?;
    show(&rt, true, &ROUTED_ROWS)
}
