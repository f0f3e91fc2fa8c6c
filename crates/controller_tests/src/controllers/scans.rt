//! Scans in which coil 00002 follows coil 00001, what comes between their events, and a scan that
//! stops.
use super::acts::Act;
use super::plans::{COIL_1, COIL_2, Piece, Plan};
use super::{Case, show};
use controller_core::StepEnd;
use plant_types::Element;
use scan_order::ScanStep;
use std::test::Fail;

const FOLLOWER: [Piece; 2] = [
    Piece::At(1, 1, Element::Open(COIL_1)),
    Piece::At(1, 2, Element::Coil(COIL_2)),
];

/// Two scans of three rows.
pub const THRICE: Plan = Plan {
    panel: &[],
    networks: &[&FOLLOWER],
    rows: 3,
    power: &[],
    watchdog: 500,
    scans: 2,
};

/// Another node switches coil 00001 on.
pub const SWITCH_ON: Act = Act::Ask(&[5, 0, 0, 0xff, 0], &[5, 0, 0, 0xff, 0]);

/// A solve sees what was written after Begin: another node reads both coils.
const SWITCHED: Case = Case {
    plan: Plan { rows: 1, ..THRICE },
    acts: &[
        Act::Reserve,
        Act::Did(ScanStep::Begin),
        SWITCH_ON,
        Act::Did(ScanStep::Solve(1)),
        Act::Ask(&[1, 0, 0, 0, 2], &[1, 1, 3]),
    ],
    events: 4,
    values: &[],
    gone: 0,
    stop: 0,
};

#[test]
fn a_solve_sees_what_was_written_behind_begin(rt: HostRuntime) -> Result<(), Fail> {
    show(&rt, &SWITCHED)
}

/// The first row begins a network, and leaves one: the second begins that, and stops.
const STOPPED: Case = Case {
    plan: Plan {
        watchdog: 2,
        ..THRICE
    },
    acts: &[
        Act::Reserve,
        Act::Did(ScanStep::Begin),
        Act::Did(ScanStep::Solve(1)),
        Act::HasLine(ScanStep::Solve(1), false),
        Act::Did(ScanStep::Solve(2)),
        Act::HasLine(ScanStep::Solve(2), true),
        Act::Reserve,
        Act::Over(StepEnd::Stopped(1)),
        Act::Ask(&[1, 0, 0, 0, 2], &[1, 1, 0]),
    ],
    events: 4,
    values: &[],
    gone: 0,
    stop: 1,
};

#[test]
fn a_controller_stops_in_its_second_row(rt: HostRuntime) -> Result<(), Fail> {
    show(&rt, &STOPPED)
}

/// A scan whose memory was taken before it began, and which gives that back.
const RESERVED: Case = Case {
    plan: THRICE,
    acts: &[
        Act::IsReserved(false),
        Act::Reserve,
        Act::Did(ScanStep::Begin),
        Act::Did(ScanStep::Solve(1)),
        Act::Did(ScanStep::Solve(2)),
        Act::Did(ScanStep::Solve(3)),
        Act::IsReserved(true),
        Act::Did(ScanStep::End),
        Act::IsReserved(false),
    ],
    events: 5,
    values: &[],
    gone: 1,
    stop: 0,
};

#[test]
fn a_reserved_scan_is_made_whole(rt: HostRuntime) -> Result<(), Fail> {
    show(&rt, &RESERVED)
}
