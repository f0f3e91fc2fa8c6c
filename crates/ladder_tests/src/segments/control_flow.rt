//! Skips, subroutines, returns and the watchdog.
use super::Piece::At;
use super::{COIL_1, COIL_2, COIL_3, COIL_4, Case, Piece, REGISTER_1, SCAN, Scan, show};
use plant_types::{Element, MathOp, Operand};
use std::test::Fail;

/// Power at the left of a network.
const POWER: Piece = At(1, 1, Element::Wire);

/// Networks that set one coil each.
const SETS_1: &[Piece] = &[POWER, At(1, 2, Element::Coil(COIL_1))];

const SETS_2: &[Piece] = &[POWER, At(1, 2, Element::Coil(COIL_2))];

const SETS_3: &[Piece] = &[POWER, At(1, 2, Element::Coil(COIL_3))];

const LAB_1: &[Piece] = &[At(1, 1, Element::Label(1))];

const LAB_2: &[Piece] = &[At(1, 1, Element::Label(2))];

const CALL_1: Piece = At(1, 1, Element::Call(Operand::Const(1)));

const CALLS: &[Piece] = &[CALL_1, At(1, 2, Element::Coil(COIL_4))];

const SKIPS_ALL: &[Piece] = &[POWER, At(1, 2, Element::Skip(Operand::Const(0)))];

const SKIPS_ONE: &[Piece] = &[POWER, At(1, 2, Element::Skip(Operand::Const(2)))];

const SKIPS_FAR: &[Piece] = &[POWER, At(1, 2, Element::Skip(Operand::Const(9999)))];

/// A skip of no other network, above a coil of its column.
const SKIPS_REST: &[Piece] = &[
    POWER,
    At(2, 1, Element::Wire),
    At(1, 2, Element::Skip(Operand::Const(1))),
    At(2, 2, Element::Coil(COIL_4)),
];

/// A call of a subroutine that is not there, its upper and its lower output.
const MISSES: &[Piece] = &[
    At(1, 1, Element::Call(Operand::Const(3))),
    At(1, 2, Element::Coil(COIL_1)),
    At(2, 2, Element::Coil(COIL_2)),
];

/// Two calls, and contacts of what the subroutines set.
const CALLS_BOTH: &[Piece] = &[
    CALL_1,
    At(3, 1, Element::Call(Operand::Const(2))),
    At(1, 2, Element::Open(COIL_1)),
    At(3, 2, Element::Open(COIL_2)),
    At(1, 3, Element::Coil(COIL_3)),
    At(3, 3, Element::Coil(COIL_4)),
];

/// A return above a coil of its column.
const RETURNS: &[Piece] = &[
    POWER,
    At(2, 1, Element::Wire),
    At(1, 2, Element::Return),
    At(2, 2, Element::Coil(COIL_3)),
];

const SUM: Element = Element::Math {
    op: MathOp::Add,
    top: Operand::Const(3),
    mid: Operand::Const(4),
    low: REGISTER_1,
};

/// A subroutine that calls itself; where it can't, it stores 7 in register 1.
const DEEP: &[Piece] = &[
    At(1, 1, Element::Label(1)),
    At(2, 1, Element::Call(Operand::Const(1))),
    At(3, 2, SUM),
];

const CASES: [Case; 16] = [
    Case {
        what: "a skip counts its own network",
        segments: &[&[SKIPS_REST, SETS_1]],
        scans: &[Scan {
            before: 9,
            left: Some(7),
            coils: &[1],
            ..SCAN
        }],
    },
    Case {
        what: "a skip of one network more",
        segments: &[&[SKIPS_ONE, SETS_1, SETS_2]],
        scans: &[Scan {
            before: 9,
            left: Some(7),
            coils: &[2],
            ..SCAN
        }],
    },
    Case {
        what: "a skip of all ends the segment",
        segments: &[&[SETS_1, SKIPS_ALL, SETS_2]],
        scans: &[Scan {
            before: 9,
            left: Some(7),
            coils: &[1],
            ..SCAN
        }],
    },
    Case {
        what: "a skip beyond the segment ends it",
        segments: &[&[SETS_1, SKIPS_FAR, SETS_2]],
        scans: &[Scan {
            before: 9,
            left: Some(7),
            coils: &[1],
            ..SCAN
        }],
    },
    Case {
        what: "a skip of all ends its subroutine",
        segments: &[&[CALLS, SETS_2, SETS_3], &[LAB_1, SKIPS_ALL, SETS_1]],
        scans: &[Scan {
            before: 9,
            left: Some(4),
            coils: &[2, 3, 4],
            ..SCAN
        }],
    },
    Case {
        what: "a skip beyond its subroutine ends it",
        segments: &[&[CALLS, SETS_2, SETS_3], &[LAB_1, SKIPS_FAR, SETS_1]],
        scans: &[Scan {
            before: 9,
            left: Some(4),
            coils: &[2, 3, 4],
            ..SCAN
        }],
    },
    Case {
        what: "a skipped network calls nothing",
        segments: &[&[SKIPS_ONE, CALLS, SETS_2], &[LAB_1, SETS_1]],
        scans: &[Scan {
            before: 9,
            left: Some(7),
            coils: &[2],
            ..SCAN
        }],
    },
    Case {
        what: "a subroutine ends at the next label",
        segments: &[&[CALLS], &[LAB_1, SETS_1, LAB_2, SETS_2]],
        scans: &[Scan {
            before: 9,
            left: Some(6),
            coils: &[1, 4],
            ..SCAN
        }],
    },
    Case {
        what: "a label that is not there gives the lower output",
        segments: &[&[MISSES], &[LAB_1, SETS_3]],
        scans: &[Scan {
            before: 9,
            left: Some(8),
            coils: &[2],
            ..SCAN
        }],
    },
    Case {
        what: "a network calls twice and sees what was done",
        segments: &[&[CALLS_BOTH], &[LAB_1, SETS_1, LAB_2, SETS_2]],
        scans: &[Scan {
            before: 9,
            left: Some(4),
            coils: &[1, 2, 3, 4],
            ..SCAN
        }],
    },
    Case {
        what: "a return outside a call ends the segment at once",
        segments: &[&[SETS_1, RETURNS, SETS_2]],
        scans: &[Scan {
            before: 9,
            left: Some(7),
            coils: &[1],
            ..SCAN
        }],
    },
    Case {
        what: "a return ends its subroutine at once",
        segments: &[&[CALLS, SETS_1], &[LAB_1, RETURNS, SETS_2]],
        scans: &[Scan {
            before: 9,
            left: Some(5),
            coils: &[1, 4],
            ..SCAN
        }],
    },
    Case {
        what: "calls go a hundred deep",
        segments: &[&[CALLS], &[DEEP]],
        scans: &[Scan {
            before: 1000,
            left: Some(899),
            coils: &[4],
            words: &[(1, 7)],
            ..SCAN
        }],
    },
    Case {
        what: "the watchdog counts over solves",
        segments: &[&[CALLS], &[LAB_1, SETS_1]],
        scans: &[
            Scan {
                before: 6,
                left: Some(3),
                coils: &[1, 4],
                ..SCAN
            },
            Scan {
                coils_set: &[(1, false)],
                before: 3,
                left: Some(0),
                coils: &[4],
                ..SCAN
            },
        ],
    },
    Case {
        what: "the watchdog stops before a network",
        segments: &[&[SETS_1]],
        scans: &[Scan {
            before: 1,
            left: Some(0),
            ..SCAN
        }],
    },
    Case {
        what: "the watchdog stops in a subroutine",
        segments: &[&[SETS_1, CALLS, SETS_2], &[LAB_1, SETS_3]],
        scans: &[Scan {
            before: 4,
            left: Some(0),
            coils: &[1],
            ..SCAN
        }],
    },
];

#[test]
fn networks_are_solved_where_the_flow_goes(rt: HostRuntime) -> Result<(), Fail> {
    show(&rt, &CASES)
}
