//! Requests of another node, and a history that has one.
use super::acts::{ASKER, Act};
use super::plans::Plan;
use super::{Case, run, show};
use controller_core::{Entry, StepEnd};
use scan_order::ScanStep;
use std::test::Fail;

/// No network, and one scan.
const SMALL: Plan = Plan {
    panel: &[],
    networks: &[],
    rows: 0,
    power: &[],
    watchdog: 500,
    scans: 1,
};

const REQUESTS: Case = Case {
    plan: SMALL,
    acts: &[
        Act::Ask(&[3, 0, 0, 0, 0x7d], &[0x83, 2]),
        Act::Ask(&[3, 0, 0, 0, 0x7e], &[0x83, 3]),
        Act::Ask(&[3, 0, 0, 0, 0], &[0x83, 3]),
        Act::Ask(&[3, 0, 0, 0], &[0x83, 3]),
        Act::Ask(&[7], &[0x87, 1]),
        Act::Ask(&[5, 0, 0, 0x12, 0x34], &[0x85, 3]),
        Act::Ask(&[1, 0, 0, 0, 16], &[1, 2, 0, 0]),
        Act::Ask(&[5, 0, 0, 0xff, 0], &[5, 0, 0, 0xff, 0]),
        Act::Ask(&[1, 0, 0, 0, 16], &[1, 2, 1, 0]),
        Act::Ask(&[6, 0, 0, 0, 18], &[6, 0, 0, 0, 18]),
        Act::Ask(
            &[0x16, 0, 0, 0, 0xf2, 0, 0x25],
            &[0x16, 0, 0, 0, 0xf2, 0, 0x25],
        ),
        Act::Ask(&[3, 0, 0, 0, 1], &[3, 2, 0, 23]),
        Act::Ask(&[0x17, 0, 0, 0, 1, 0, 0, 0, 1, 2, 0, 7], &[0x17, 2, 0, 7]),
        Act::Ask(&[8, 0, 0, 0xa5, 0x37], &[8, 0, 0, 0xa5, 0x37]),
        Act::Ask(&[8, 0, 1, 0, 0], &[0x88, 3]),
    ],
    events: 15,
    values: &[],
    gone: 0,
    stop: 0,
};

#[test]
fn requests_are_answered(rt: HostRuntime) -> Result<(), Fail> {
    show(&rt, &REQUESTS)
}

const EMPTY_SCAN: Case = Case {
    plan: SMALL,
    acts: &[
        Act::Reserve,
        Act::Did(ScanStep::Begin),
        Act::Did(ScanStep::End),
        Act::Reserve,
        Act::Over(StepEnd::Ended),
    ],
    events: 2,
    values: &[],
    gone: 1,
    stop: 0,
};

#[test]
fn a_scan_without_rows_begins_and_ends(rt: HostRuntime) -> Result<(), Fail> {
    show(&rt, &EMPTY_SCAN)
}

/// A read of register 40001 between the events of a scan.
const SCAN_WITH_A_REQUEST: Case = Case {
    plan: SMALL,
    acts: &[
        Act::Reserve,
        Act::Did(ScanStep::Begin),
        Act::Ask(&[3, 0, 0, 0, 1], &[3, 2, 0, 0]),
        Act::Did(ScanStep::End),
    ],
    events: 3,
    values: &[],
    gone: 1,
    stop: 0,
};

#[test]
fn a_history_has_each_event(rt: HostRuntime) -> Result<(), Fail> {
    let left = run(&rt, &SCAN_WITH_A_REQUEST)?;
    assert!(rt;
        matches!(
            left.history.as_slice(),
            [
                Entry::Begin { .. },
                Entry::Peer { id: ASKER, .. },
                Entry::End { .. }
            ]
        )
    );
    Ok(())
}

const FOLLOWED: Case = Case {
    plan: SMALL,
    acts: &[Act::FollowBegin],
    events: 1,
    values: &[],
    gone: 0,
    stop: 0,
};

#[test]
fn the_entry_that_is_due_is_followed(rt: HostRuntime) -> Result<(), Fail> {
    show(&rt, &FOLLOWED)
}
