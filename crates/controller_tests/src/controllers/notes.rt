//! What a controller notes of its panel.
use super::acts::Act;
use super::plans::{COIL_1, COIL_2, Plan};
use super::scans::{SWITCH_ON, THRICE};
use super::{Case, show};
use scan_order::ScanStep;
use std::test::Fail;

/// Coils 00001 and 00002 are shown.
const SHOWN: Plan = Plan {
    panel: &[COIL_1, COIL_2],
    ..THRICE
};

/// Another node switches coil 00001 on in the first scan, and off in the second.
const SCANS: Case = Case {
    plan: SHOWN,
    acts: &[
        Act::Reserve,
        Act::Did(ScanStep::Begin),
        SWITCH_ON,
        Act::Did(ScanStep::Solve(1)),
        Act::Did(ScanStep::Solve(2)),
        Act::Did(ScanStep::Solve(3)),
        Act::Did(ScanStep::End),
        Act::Reserve,
        Act::Did(ScanStep::Begin),
        Act::Ask(&[5, 0, 0, 0, 0], &[5, 0, 0, 0, 0]),
        Act::Did(ScanStep::Solve(1)),
        Act::Did(ScanStep::Solve(2)),
        Act::Did(ScanStep::Solve(3)),
        Act::Did(ScanStep::End),
    ],
    events: 12,
    values: &[1, 1, 0, 0],
    gone: 2,
    stop: 0,
};

#[test]
fn each_scan_notes_its_panel(rt: HostRuntime) -> Result<(), Fail> {
    show(&rt, &SCANS)
}

/// The first of the rows leaves one network to the watchdog, and the second stops.
const STOPPED: Case = Case {
    plan: Plan {
        watchdog: 2,
        ..SHOWN
    },
    acts: &[
        Act::Reserve,
        Act::Did(ScanStep::Begin),
        SWITCH_ON,
        Act::Did(ScanStep::Solve(1)),
        Act::Did(ScanStep::Solve(2)),
    ],
    events: 4,
    values: &[1, 1],
    gone: 0,
    stop: 1,
};

#[test]
fn a_scan_that_stops_notes_its_panel(rt: HostRuntime) -> Result<(), Fail> {
    show(&rt, &STOPPED)
}
