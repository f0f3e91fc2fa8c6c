//! Controllers whose power fails: what falls, what holds, and what others are told.
use super::acts::Act;
use super::plans::{COIL_1, COIL_2, COIL_3, Piece, Plan};
use super::{Case, show};
use plant_types::{Element, Operand, PowerRow, Ref, RefKind};
use scan_order::ScanStep;
use std::test::Fail;

const COIL_4: Ref = Ref {
    kind: RefKind::Coil,
    number: 4,
};

const REGISTER_1: Ref = Ref {
    kind: RefKind::Register,
    number: 1,
};

/// Coil 00003 follows the coil 00001 and coil 00004 the latch 00002, as they were a scan before;
/// both of these are switched on in each scan.
const FOLLOWERS: [Piece; 8] = [
    Piece::At(1, 1, Element::Open(COIL_1)),
    Piece::At(1, 2, Element::Coil(COIL_3)),
    Piece::At(2, 1, Element::Open(COIL_2)),
    Piece::At(2, 2, Element::Coil(COIL_4)),
    Piece::At(4, 1, Element::Wire),
    Piece::At(4, 2, Element::Coil(COIL_1)),
    Piece::At(5, 1, Element::Wire),
    Piece::At(5, 2, Element::Latch(COIL_2)),
];

/// Another node switches coil 00001 on.
const SWITCH_ON: &[u8] = &[5, 0, 0, 0xff, 0];

/// Power fails after Begin in scan 2, and scan 3 is dark: the coils fall, the latch holds. A
/// request has no reply then, and changes nothing.
const FALLEN: Case = Case {
    plan: Plan {
        panel: &[COIL_3, COIL_4],
        networks: &[&FOLLOWERS],
        rows: 1,
        power: &[PowerRow {
            scan: 2,
            row: 0,
            dark: 1,
        }],
        watchdog: 500,
        scans: 4,
    },
    acts: &[
        Act::Reserve,
        Act::Did(ScanStep::Begin),
        Act::Did(ScanStep::Solve(1)),
        Act::Did(ScanStep::End),
        Act::Has(COIL_1, 1),
        Act::Has(COIL_2, 1),
        Act::Reserve,
        Act::Did(ScanStep::Begin),
        Act::Power(0, false),
        Act::Did(ScanStep::Fail),
        Act::IsReserved(false),
        Act::HasLine(ScanStep::Fail, true),
        Act::Power(1, true),
        Act::Clock(10, 20),
        Act::Silent(SWITCH_ON),
        Act::Has(COIL_1, 0),
        Act::Has(COIL_2, 1),
        Act::Has(COIL_3, 0),
        Act::Has(COIL_4, 0),
        Act::Reserve,
        Act::Did(ScanStep::Dark),
        Act::IsReserved(false),
        Act::Power(1, true),
        Act::Clock(10, 20),
        Act::Silent(SWITCH_ON),
        Act::Reserve,
        Act::Did(ScanStep::Begin),
        Act::Power(1, false),
        Act::Clock(20, 30),
        Act::Ask(&[1, 0, 0, 0, 2], &[1, 1, 2]),
        Act::Did(ScanStep::Solve(1)),
        Act::Did(ScanStep::End),
    ],
    events: 12,
    values: &[0, 0, 0, 0, 0, 0, 0, 1],
    gone: 4,
    stop: 0,
};

#[test]
fn coils_fall_and_latches_hold(rt: HostRuntime) -> Result<(), Fail> {
    show(&rt, &FALLEN)
}

/// A latch that a contact watches for going on, and a counter whose input stays on.
const WATCHED: [Piece; 7] = [
    Piece::At(1, 1, Element::Rise(COIL_1)),
    Piece::At(1, 2, Element::Coil(COIL_2)),
    Piece::At(2, 1, Element::Wire),
    Piece::At(2, 2, Element::Latch(COIL_1)),
    Piece::At(4, 1, Element::Wire),
    Piece::At(5, 1, Element::Wire),
    Piece::At(
        4,
        2,
        Element::Counter {
            up: true,
            preset: Operand::Const(9),
            acc: REGISTER_1,
        },
    ),
];

/// Power fails after the solve of scan 1: the latch that it set counts as on before, and the
/// counter has seen its input.
const KEPT: Case = Case {
    plan: Plan {
        panel: &[],
        networks: &[&WATCHED],
        rows: 1,
        power: &[PowerRow {
            scan: 1,
            row: 1,
            dark: 0,
        }],
        watchdog: 500,
        scans: 2,
    },
    acts: &[
        Act::Reserve,
        Act::Did(ScanStep::Begin),
        Act::Did(ScanStep::Solve(1)),
        Act::Did(ScanStep::Fail),
        Act::Has(COIL_1, 1),
        Act::Has(REGISTER_1, 1),
        Act::Reserve,
        Act::Did(ScanStep::Begin),
        Act::Did(ScanStep::Solve(1)),
        Act::Did(ScanStep::End),
        Act::Has(COIL_2, 0),
        Act::Has(REGISTER_1, 1),
    ],
    events: 6,
    values: &[],
    gone: 2,
    stop: 0,
};

#[test]
fn a_failure_keeps_discretes_and_edges(rt: HostRuntime) -> Result<(), Fail> {
    show(&rt, &KEPT)
}
