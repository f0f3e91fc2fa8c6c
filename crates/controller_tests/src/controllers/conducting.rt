//! What conducted in each solve that a controller followed, worked out by hand.
use super::acts::{Act, Noted};
use super::plans::{COIL_1, COIL_2, COIL_3, Piece, Plan};
use super::scans::{SWITCH_ON, THRICE};
use super::{Case, show};
use controller_core::StepEnd;
use plant_types::{Element, Operand};
use scan_order::ScanStep;
use std::test::Fail;

/// Coil 00002 follows coil 00001 over a short.
const JOINED: [Piece; 3] = [
    Piece::At(1, 1, Element::Open(COIL_1)),
    Piece::Joins(1, 1),
    Piece::At(2, 2, Element::Coil(COIL_2)),
];

/// Ends in column 2 and skips the next network.
const SKIPS: [Piece; 3] = [
    Piece::At(1, 1, Element::Wire),
    Piece::At(2, 1, Element::Open(COIL_2)),
    Piece::At(1, 2, Element::Skip(Operand::Const(2))),
];

const SKIPPED: [Piece; 1] = [Piece::At(1, 1, Element::Wire)];

/// Coil 00003 changes with each solve.
const CHANGES: [Piece; 2] = [
    Piece::At(1, 1, Element::Closed(COIL_3)),
    Piece::At(1, 2, Element::Coil(COIL_3)),
];

const PLAN: Plan = Plan {
    networks: &[&JOINED, &SKIPS, &SKIPPED, &CHANGES],
    rows: 2,
    ..THRICE
};

/// Coil 00001 is on: the short makes row 2 live too.
const JOINED_ON: Noted = Noted {
    network: 1,
    masks: &[3, 0, 0, 0, 0, 0, 0, 0, 0, 0, 0],
};

/// Coil 00002 is on, since the network before it was solved.
const SKIPS_ON: Noted = Noted {
    network: 2,
    masks: &[3],
};

/// The contact let power pass, and it is open after the solve.
const CHANGES_FIRST: Noted = Noted {
    network: 4,
    masks: &[1, 0, 0, 0, 0, 0, 0, 0, 0, 0, 0],
};

/// The contact was open, and it is closed after the solve.
const CHANGES_NEXT: Noted = Noted {
    network: 4,
    masks: &[0, 0, 0, 0, 0, 0, 0, 0, 0, 0, 0],
};

/// A scan of two rows, of which each is followed in its turn alone.
const FOLLOWED: Case = Case {
    plan: PLAN,
    acts: &[
        Act::NotDue(1),
        Act::FollowBegin,
        SWITCH_ON,
        Act::NotDue(2),
        Act::Conducts(1, &[JOINED_ON, SKIPS_ON, CHANGES_FIRST]),
        Act::Has(COIL_3, 1),
        Act::NotDue(1),
        Act::Conducts(2, &[JOINED_ON, SKIPS_ON, CHANGES_NEXT]),
        Act::Has(COIL_3, 0),
        Act::NotDue(2),
        Act::Did(ScanStep::End),
    ],
    events: 5,
    values: &[],
    gone: 1,
    stop: 0,
};

#[test]
fn solves_note_what_conducted(rt: HostRuntime) -> Result<(), Fail> {
    show(&rt, &FOLLOWED)
}

/// The watchdog stops the solve at its second network, of which nothing is noted.
const STOPPED: Case = Case {
    plan: Plan {
        watchdog: 2,
        ..PLAN
    },
    acts: &[
        Act::FollowBegin,
        SWITCH_ON,
        Act::Conducts(1, &[JOINED_ON]),
        Act::NotDue(2),
        Act::Reserve,
        Act::Over(StepEnd::Stopped(1)),
    ],
    events: 3,
    values: &[],
    gone: 0,
    stop: 1,
};

#[test]
fn a_solve_that_stops_notes_no_more(rt: HostRuntime) -> Result<(), Fail> {
    show(&rt, &STOPPED)
}
