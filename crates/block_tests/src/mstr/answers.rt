//! What each operation stores of a good result, and where control block and data area overlap.
use super::acts::{self, Act, Asks, Script};
use super::rig::{ACTIVE, ENABLE, ERROR, FIRST, Rig, SUCCESS, Stand};
use std::alloc::{AllocError, AllocGlobal};
use std::process::Abort;
use std::test::Fail;

/// Operation, length and start of a call to node 5; the words of its result; then the start
/// register and five registers of the area, which were 77 each.
type Row = (u16, u16, u16, &'static [u16], [u16; 6]);

/// The start register and five of the area after a call ended with these words; zeros where the
/// block did not end with success.
fn answer_of(
    rt: &(impl Abort + AllocGlobal),
    block: [u16; 9],
    words: &[u16],
) -> Result<[u16; 6], AllocError> {
    let mut rig = Rig::new(rt.alloc(), 1, false)?;
    rig.fill(rt, 1, &block);
    rig.fill(rt, 11, &[77, 77, 77, 77, 77]);
    let stand = Stand { room: 5, ..FIRST };
    rig.solve(rt, 1, stand, ENABLE);
    let id = rig.take();
    rig.succeed(rt, id, words);
    rig.fill(rt, 3, &[1]);
    if rig.solve(rt, 1, stand, 0) != SUCCESS || rig.get(rt, 2) != 0 {
        return Ok([0; 6]);
    }
    let mut after = [rig.get(rt, 4); 6];
    for (i, word) in after[1..].iter_mut().enumerate() {
        *word = rig.get(rt, 11 + i as u16);
    }
    Ok(after)
}

const ROWS: [Row; 18] = [
    // Reads and a write.
    (2, 2, 1, &[42, 43], [1, 42, 43, 77, 77, 77]),
    (2, 2, 1, &[42, 43, 44], [1, 42, 43, 77, 77, 77]),
    (2, 3, 1, &[42, 43], [1, 42, 43, 77, 77, 77]),
    (2, 3, 1, &[], [1, 77, 77, 77, 77, 77]),
    (1, 2, 1, &[42, 43], [1, 77, 77, 77, 77, 77]),
    // Statistics.
    (3, 2, 0, &[], [0, 77, 77, 77, 77, 77]),
    (3, 2, 0, &[1, 2, 3], [0, 1, 2, 77, 77, 77]),
    (3, 2, 1, &[1, 2, 3, 4], [1, 2, 3, 77, 77, 77]),
    (7, 3, 1, &[1, 2, 3], [1, 2, 3, 77, 77, 77]),
    (7, 2, 17, &[1, 2, 3], [17, 77, 77, 77, 77, 77]),
    (3, 5, 0, &[1, 2, 3, 4, 5, 6], [0, 1, 2, 3, 4, 5]),
    // Global data.
    (6, 2, 50, &[3, 7, 8, 9], [3, 7, 8, 77, 77, 77]),
    (6, 3, 50, &[2, 7, 8], [2, 7, 8, 77, 77, 77]),
    (6, 2, 50, &[0], [0, 77, 77, 77, 77, 77]),
    (6, 2, 50, &[], [50, 77, 77, 77, 77, 77]),
    (5, 2, 50, &[3, 7, 8], [50, 77, 77, 77, 77, 77]),
    // Clears.
    (4, 2, 50, &[3, 7, 8], [50, 77, 77, 77, 77, 77]),
    (8, 2, 50, &[3, 7, 8], [50, 77, 77, 77, 77, 77]),
];

#[test]
fn good_results_are_stored(rt: HostRuntime) -> Result<(), Fail> {
    for (code, length, start, words, after) in &ROWS {
        let block = [*code, 9, *length, *start, 5, 0, 0, 0, 0];
        assert_eq!(rt; answer_of(&rt, block, words)?, *after);
    }
    Ok(())
}

/// A data area that begins at the status.
const OVER_THE_STATUS: Stand = Stand {
    control: 1,
    area: 2,
    room: 5,
};

const SCRIPTS: [Script; 3] = [
    // The words to write are read before the status is cleared.
    Script {
        name: "writes_over_its_status",
        blocks: 1,
        routed: false,
        acts: &[
            Act::Set(1, &[5, 99, 2, 0, 0, 0, 0, 0, 0]),
            Act::Solve(1, OVER_THE_STATUS, ENABLE, ACTIVE),
            Act::Has(2, 0),
            Act::Take(0, 1, Asks::PutGlobal(&[99, 2])),
        ],
    },
    // The data area is stored last: over the status, and over the number of words available.
    Script {
        name: "answers_over_its_control_block",
        blocks: 1,
        routed: false,
        acts: &[
            Act::Set(1, &[6, 99, 3, 0, 5, 0, 0, 0, 0]),
            Act::Solve(1, OVER_THE_STATUS, ENABLE, ACTIVE),
            Act::Take(0, 1, Asks::Anything),
            Act::Succeed(0, 1, &[3, 7, 8, 9]),
            Act::Solve(1, OVER_THE_STATUS, ENABLE, SUCCESS),
            Act::Has(2, 7),
            Act::Has(3, 8),
            Act::Has(4, 9),
        ],
    },
    // A bad result leaves its word in the status, and nothing else.
    Script {
        name: "bad_results",
        blocks: 1,
        routed: false,
        acts: &[
            Act::Set(1, &[2, 99, 2, 1, 5, 0, 0, 0, 0]),
            Act::Solve(1, FIRST, ENABLE, ACTIVE),
            Act::Take(1, 1, Asks::Anything),
            Act::Fail(1, 1, 0x6101),
            Act::Solve(1, FIRST, 0, ERROR),
            Act::Has(2, 0x6101),
            Act::Has(11, 0),
            Act::Solve(1, FIRST, 0, 0),
        ],
    },
];

#[test]
fn control_blocks_keep_results(rt: HostRuntime) -> Result<(), AllocError> {
    acts::show(&rt, &SCRIPTS)
}
