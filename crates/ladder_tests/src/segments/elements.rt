//! Elements over several scans, which begin 30 ticks apart.
use super::Piece::At;
use super::{
    COIL_1, COIL_2, COIL_3, COIL_4, COIL_5, COIL_6, Case, INPUT_1, INPUT_2, Piece, REGISTER_1,
    REGISTER_2, REGISTER_4, REGISTER_6, SCAN, Scan, show,
};
use plant_types::{Element, MathOp, Operand, Unit};
use std::test::Fail;

const CHANGES: &[Piece] = &[
    At(1, 1, Element::Rise(INPUT_1)),
    At(1, 2, Element::Coil(COIL_1)),
    At(2, 1, Element::Fall(INPUT_1)),
    At(2, 2, Element::Coil(COIL_2)),
];

const FOLLOWS: &[Piece] = &[
    At(1, 1, Element::Open(INPUT_1)),
    At(1, 2, Element::Coil(COIL_1)),
];

const CHANGES_OF_1: &[Piece] = &[
    At(1, 1, Element::Rise(COIL_1)),
    At(1, 2, Element::Coil(COIL_2)),
];

const COUNTS_TO_1: &[Piece] = &[
    At(1, 1, Element::Open(INPUT_1)),
    At(2, 1, Element::Wire),
    At(
        1,
        2,
        Element::Counter {
            up: true,
            preset: Operand::Const(1),
            acc: REGISTER_1,
        },
    ),
    At(1, 3, Element::Coil(COIL_1)),
];

const COUNTS_TWICE: &[Piece] = &[
    At(1, 1, Element::Open(INPUT_1)),
    At(2, 1, Element::Wire),
    At(
        1,
        2,
        Element::Counter {
            up: true,
            preset: Operand::Const(9),
            acc: REGISTER_1,
        },
    ),
    At(3, 1, Element::Open(INPUT_2)),
    At(4, 1, Element::Wire),
    At(
        3,
        2,
        Element::Counter {
            up: true,
            preset: Operand::Const(9),
            acc: REGISTER_2,
        },
    ),
];

const TIMER: Element = Element::Timer {
    unit: Unit::Second,
    preset: Operand::Const(2),
    acc: REGISTER_1,
};

const TIMES: &[Piece] = &[
    At(1, 1, TIMER),
    At(1, 2, Element::Coil(COIL_1)),
    At(2, 2, Element::Coil(COIL_2)),
];

const ADDS: &[Piece] = &[
    At(
        1,
        1,
        Element::Math {
            op: MathOp::Add,
            top: Operand::Const(9999),
            mid: Operand::Const(1),
            low: REGISTER_1,
        },
    ),
    At(1, 2, Element::Coil(COIL_1)),
    At(
        4,
        1,
        Element::Math {
            op: MathOp::Mul,
            top: Operand::Const(8000),
            mid: Operand::Const(2),
            low: REGISTER_2,
        },
    ),
    At(4, 2, Element::Coil(COIL_2)),
];

const DIVIDES_BY_0: &[Piece] = &[
    At(
        1,
        1,
        Element::Math {
            op: MathOp::Div,
            top: Operand::Const(7),
            mid: Operand::Const(0),
            low: REGISTER_4,
        },
    ),
    At(3, 2, Element::Coil(COIL_3)),
];

const DIVIDES: &[Piece] = &[At(
    1,
    1,
    Element::Math {
        op: MathOp::Div,
        top: Operand::Const(7),
        mid: Operand::Const(2),
        low: REGISTER_6,
    },
)];

const SUBTRACTS: &[Piece] = &[
    At(
        1,
        1,
        Element::Math {
            op: MathOp::Sub,
            top: Operand::Const(5),
            mid: Operand::Const(5),
            low: REGISTER_1,
        },
    ),
    At(1, 2, Element::Coil(COIL_1)),
    At(2, 2, Element::Coil(COIL_2)),
    At(3, 2, Element::Coil(COIL_3)),
    At(
        4,
        1,
        Element::Math {
            op: MathOp::Sub,
            top: Operand::Const(4),
            mid: Operand::Const(5),
            low: REGISTER_2,
        },
    ),
    At(4, 2, Element::Coil(COIL_4)),
    At(5, 2, Element::Coil(COIL_5)),
    At(6, 2, Element::Coil(COIL_6)),
];

/// Scans of a timer that has counted nothing, one second and two.
const COUNTS_0: Scan = Scan {
    coils: &[2],
    words: &[(1, 0)],
    ..SCAN
};

const COUNTS_1: Scan = Scan {
    coils: &[2],
    words: &[(1, 1)],
    ..SCAN
};

const COUNTS_2: Scan = Scan {
    coils: &[1],
    words: &[(1, 2)],
    ..SCAN
};

const CASES: [Case; 7] = [
    Case {
        what: "transitional contacts compare with the scan before",
        segments: &[&[CHANGES]],
        scans: &[
            Scan {
                inputs: &[1],
                coils: &[1],
                ..SCAN
            },
            Scan {
                coils: &[2],
                ..SCAN
            },
            SCAN,
        ],
    },
    Case {
        what: "they compare with its end, whatever a peer did since then",
        segments: &[&[FOLLOWS, CHANGES_OF_1]],
        scans: &[
            Scan {
                inputs: &[1],
                coils: &[1, 2],
                ..SCAN
            },
            Scan {
                coils_set: &[(1, false)],
                inputs: &[1],
                coils: &[1],
                ..SCAN
            },
        ],
    },
    Case {
        what: "a counter stays at its preset",
        segments: &[&[COUNTS_TO_1]],
        scans: &[
            Scan {
                inputs: &[1],
                coils: &[1],
                words: &[(1, 1)],
                ..SCAN
            },
            Scan {
                coils: &[1],
                words: &[(1, 1)],
                ..SCAN
            },
            Scan {
                inputs: &[1],
                coils: &[1],
                words: &[(1, 1)],
                ..SCAN
            },
        ],
    },
    Case {
        what: "each counter has its own edge bit",
        segments: &[&[COUNTS_TWICE]],
        scans: &[
            Scan {
                inputs: &[1, 2],
                words: &[(1, 1), (2, 1)],
                ..SCAN
            },
            Scan {
                inputs: &[2],
                words: &[(1, 1), (2, 1)],
                ..SCAN
            },
            Scan {
                inputs: &[1, 2],
                words: &[(1, 2), (2, 1)],
                ..SCAN
            },
        ],
    },
    Case {
        what: "a timer counts seconds",
        segments: &[&[TIMES]],
        scans: &[
            COUNTS_0, COUNTS_0, COUNTS_0, COUNTS_1, COUNTS_1, COUNTS_1, COUNTS_2,
        ],
    },
    Case {
        what: "arithmetic of two constants",
        segments: &[&[ADDS, DIVIDES_BY_0, DIVIDES]],
        scans: &[Scan {
            coils: &[1, 2, 3],
            words: &[(1, 0), (2, 1), (3, 6000), (4, 0), (6, 3), (7, 5000)],
            ..SCAN
        }],
    },
    Case {
        what: "outputs feed the rows of their nodes",
        segments: &[&[SUBTRACTS]],
        scans: &[Scan {
            coils: &[2, 6],
            words: &[(1, 0), (2, 1)],
            ..SCAN
        }],
    },
];

#[test]
fn elements_go_on_from_scan_to_scan(rt: HostRuntime) -> Result<(), Fail> {
    show(&rt, &CASES)
}
