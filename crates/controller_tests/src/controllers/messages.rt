//! A read of another node's registers, from its start to its words.
use super::acts::Act;
use super::plans::{COIL_1, COIL_2, Piece, Plan};
use super::{Case, show};
use plant_types::{Element, Ref, RefKind};
use scan_order::ScanStep;
use std::test::Fail;

const COIL_3: Ref = Ref {
    kind: RefKind::Coil,
    number: 3,
};

const REGISTER_1: Ref = Ref {
    kind: RefKind::Register,
    number: 1,
};

const REGISTER_2: Ref = Ref {
    kind: RefKind::Register,
    number: 2,
};

const REGISTER_3: Ref = Ref {
    kind: RefKind::Register,
    number: 3,
};

const REGISTER_4: Ref = Ref {
    kind: RefKind::Register,
    number: 4,
};

const REGISTER_5: Ref = Ref {
    kind: RefKind::Register,
    number: 5,
};

const REGISTER_11: Ref = Ref {
    kind: RefKind::Register,
    number: 11,
};

const REGISTER_12: Ref = Ref {
    kind: RefKind::Register,
    number: 12,
};

/// Two registers of node 5 from 40001 on, into 40011 and 40012, as long as the block is solved. Its
/// outputs switch coils 00001 to 00003.
const READER: Plan = Plan {
    panel: &[],
    networks: &[
        &[
            Piece::Sum(1, 2, 0, REGISTER_1),
            Piece::Sum(4, 2, 0, REGISTER_3),
        ],
        &[
            Piece::Sum(1, 1, 0, REGISTER_4),
            Piece::Sum(4, 5, 0, REGISTER_5),
        ],
        &[
            Piece::At(1, 1, Element::Wire),
            Piece::At(
                1,
                2,
                Element::Mstr {
                    control: REGISTER_1,
                    area: REGISTER_11,
                    length: 10,
                },
            ),
            Piece::At(1, 3, Element::Coil(COIL_1)),
            Piece::At(2, 3, Element::Coil(COIL_2)),
            Piece::At(3, 3, Element::Coil(COIL_3)),
        ],
    ],
    rows: 1,
    power: &[],
    watchdog: 500,
    scans: 2,
};

/// The scan that starts the call leaves it active, and the one after its words leaves success.
const READ: Case = Case {
    plan: READER,
    acts: &[
        Act::Reserve,
        Act::Did(ScanStep::Begin),
        Act::Did(ScanStep::Solve(1)),
        Act::Did(ScanStep::End),
        Act::Has(REGISTER_2, 0),
        Act::Has(REGISTER_11, 0),
        Act::Has(REGISTER_12, 0),
        Act::Has(COIL_1, 1),
        Act::Has(COIL_2, 0),
        Act::Has(COIL_3, 0),
        Act::Collect,
        Act::Finish(&[42, 43]),
        Act::Reserve,
        Act::Did(ScanStep::Begin),
        Act::Did(ScanStep::Solve(1)),
        Act::Did(ScanStep::End),
        Act::Has(REGISTER_2, 0),
        Act::Has(REGISTER_11, 42),
        Act::Has(REGISTER_12, 43),
        Act::Has(COIL_1, 0),
        Act::Has(COIL_2, 0),
        Act::Has(COIL_3, 1),
    ],
    events: 8,
    values: &[],
    gone: 2,
    stop: 0,
};

#[test]
fn a_read_brings_its_words(rt: HostRuntime) -> Result<(), Fail> {
    show(&rt, &READ)
}
