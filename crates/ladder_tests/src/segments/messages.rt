//! MSTR blocks in networks: which numbers they have, and that each solve is one.
use super::Piece::At;
use super::{
    COIL_1, COIL_2, COIL_3, COIL_4, Case, Piece, REGISTER_1, REGISTER_11, REGISTER_12, REGISTER_13,
    SCAN, Scan, show,
};
use plant_types::{Element, Operand};
use std::test::Fail;

/// A block with power, and coils for its upper and its lower output.
const SENDS: &[Piece] = &[
    At(1, 1, Element::Wire),
    At(
        1,
        2,
        Element::Mstr {
            control: REGISTER_1,
            area: REGISTER_11,
            length: 1,
        },
    ),
    At(1, 3, Element::Coil(COIL_1)),
    At(3, 3, Element::Coil(COIL_3)),
];

/// Another.
const SENDS_TOO: &[Piece] = &[
    At(1, 1, Element::Wire),
    At(
        1,
        2,
        Element::Mstr {
            control: REGISTER_1,
            area: REGISTER_12,
            length: 1,
        },
    ),
    At(1, 3, Element::Coil(COIL_2)),
    At(3, 3, Element::Coil(COIL_4)),
];

const LAB_1: &[Piece] = &[At(1, 1, Element::Label(1))];

const LAB_2: &[Piece] = &[At(1, 1, Element::Label(2))];

const CALLS_1: &[Piece] = &[At(1, 1, Element::Call(Operand::Const(1)))];

const CALLS_2: &[Piece] = &[At(1, 1, Element::Call(Operand::Const(2)))];

/// Two blocks of one column and one to the right of the upper, the last first.
const THREE: &[Piece] = &[
    At(
        1,
        3,
        Element::Mstr {
            control: REGISTER_1,
            area: REGISTER_13,
            length: 1,
        },
    ),
    At(
        4,
        2,
        Element::Mstr {
            control: REGISTER_1,
            area: REGISTER_12,
            length: 1,
        },
    ),
    At(4, 1, Element::Wire),
    At(
        1,
        2,
        Element::Mstr {
            control: REGISTER_1,
            area: REGISTER_11,
            length: 1,
        },
    ),
    At(1, 1, Element::Wire),
];

/// Read register 1 of node 2.
const READS: &[(u16, u16)] = &[(1, 2), (3, 1), (4, 1), (5, 2)];

const CASES: [Case; 5] = [
    Case {
        what: "a block that is solved twice in a scan ends and starts again",
        segments: &[&[CALLS_1, CALLS_1], &[LAB_1, SENDS]],
        scans: &[
            Scan {
                words_set: &[(1, 4)],
                coils: &[1],
                calls: &[(0, 1)],
                ..SCAN
            },
            Scan {
                coils: &[1],
                calls: &[(0, 2)],
                ..SCAN
            },
        ],
    },
    Case {
        what: "two blocks on one control block",
        segments: &[&[SENDS, SENDS_TOO]],
        scans: &[
            Scan {
                words_set: READS,
                coils: &[1, 2],
                words: &[(2, 0), (11, 0), (12, 0)],
                calls: &[(1, 1), (2, 1)],
                ..SCAN
            },
            Scan {
                coils: &[3, 4],
                words: &[(2, 0), (11, 7), (12, 7)],
                ..SCAN
            },
        ],
    },
    Case {
        what: "numbers by column, then row",
        segments: &[&[THREE]],
        scans: &[Scan {
            words_set: READS,
            calls: &[(1, 1), (2, 1), (3, 1)],
            ..SCAN
        }],
    },
    Case {
        what: "numbers by segment: a subroutine's block starts first",
        segments: &[&[CALLS_1, SENDS], &[LAB_1, SENDS_TOO]],
        scans: &[Scan {
            words_set: READS,
            coils: &[1, 2],
            calls: &[(2, 1), (1, 1)],
            ..SCAN
        }],
    },
    Case {
        what: "numbers by network: the second subroutine's block starts first",
        segments: &[&[CALLS_2, CALLS_1], &[LAB_1, SENDS, LAB_2, SENDS_TOO]],
        scans: &[Scan {
            words_set: READS,
            coils: &[1, 2],
            calls: &[(2, 1), (1, 1)],
            ..SCAN
        }],
    },
];

#[test]
fn messages_have_their_numbers(rt: HostRuntime) -> Result<(), Fail> {
    show(&rt, &CASES)
}
