//! The states of a block, and the paths of calls.
use super::acts::{Act, Asks, Script, play, show};
use super::rig::{ABORT, ACTIVE, ENABLE, ERROR, FIRST, READ, Rig, SECOND, SUCCESS};
use std::alloc::AllocError;

/// Reads the own statistics.
const OWN_STATISTICS: [u16; 9] = [3, 9, 2, 0, 0, 0, 0, 0, 0];

const SCRIPTS: [Script; 9] = [
    // A read over two scans.
    Script {
        name: "a_read",
        blocks: 1,
        routed: false,
        acts: &[
            Act::Set(1, &READ),
            Act::Solve(1, FIRST, ENABLE, ACTIVE),
            Act::Has(2, 0),
            Act::Take(
                1,
                1,
                Asks::Read {
                    route: &[5],
                    start: 1,
                    length: 2,
                },
            ),
            Act::Succeed(1, 1, &[42, 43]),
            Act::Solve(1, FIRST, ENABLE, SUCCESS),
            Act::Has(2, 0),
            Act::Has(11, 42),
            Act::Has(12, 43),
        ],
    },
    // A read over two bridges.
    Script {
        name: "a_read_over_bridges",
        blocks: 1,
        routed: true,
        acts: &[
            Act::Set(1, &[2, 9, 2, 1, 9, 12, 5, 0, 0]),
            Act::Solve(1, FIRST, ENABLE, ACTIVE),
            Act::Take(
                1,
                1,
                Asks::Read {
                    route: &[9, 12, 5],
                    start: 1,
                    length: 2,
                },
            ),
        ],
    },
    // Whether a block is enabled counts only while it is idle.
    Script {
        name: "not_enabled",
        blocks: 1,
        routed: false,
        acts: &[
            Act::Set(1, &READ),
            Act::Solve(1, FIRST, 0, 0),
            Act::Solve(1, FIRST, ENABLE + ABORT, 0),
            Act::Has(2, 9),
            Act::Solve(1, FIRST, ENABLE, ACTIVE),
            Act::Solve(1, FIRST, 0, ACTIVE),
            Act::Take(1, 1, Asks::Anything),
            Act::Succeed(1, 1, &[1]),
            Act::Solve(1, FIRST, ABORT, SUCCESS),
            Act::Has(11, 1),
        ],
    },
    // A call that is given up before it is taken is still taken, and holds its path until it ends.
    Script {
        name: "aborted",
        blocks: 2,
        routed: false,
        acts: &[
            Act::Set(1, &READ),
            Act::Set(21, &READ),
            Act::Solve(1, FIRST, ENABLE, ACTIVE),
            Act::Solve(1, FIRST, ENABLE + ABORT, ERROR),
            Act::Has(2, 0x1001),
            Act::Solve(1, FIRST, ENABLE, 0),
            Act::Solve(2, SECOND, ENABLE, ACTIVE),
            Act::Take(1, 1, Asks::Anything),
            Act::Take(2, 1, Asks::Anything),
            Act::Succeed(1, 1, &[42]),
            Act::IsOut(1, 1, false),
            Act::IsOut(2, 1, true),
            Act::Has(2, 0x1001),
            Act::Has(11, 0),
        ],
    },
    // A block whose call was given up starts anew once that call has ended.
    Script {
        name: "starts_after_an_abort",
        blocks: 1,
        routed: false,
        acts: &[
            Act::Set(1, &READ),
            Act::Solve(1, FIRST, ENABLE, ACTIVE),
            Act::Take(1, 1, Asks::Anything),
            Act::Solve(1, FIRST, ABORT, ERROR),
            Act::IsOut(1, 1, true),
            Act::Succeed(1, 1, &[42]),
            Act::Solve(1, FIRST, ENABLE, ACTIVE),
            Act::Take(1, 2, Asks::Anything),
        ],
    },
    // Five blocks of four paths: the fifth waits, and starts with the registers of that moment.
    Script {
        name: "waits_for_a_path",
        blocks: 5,
        routed: false,
        acts: &[
            Act::Set(1, &READ),
            Act::Set(21, &READ),
            Act::Solve(1, FIRST, ENABLE, ACTIVE),
            Act::Take(1, 1, Asks::Anything),
            Act::Solve(2, FIRST, ENABLE, ACTIVE),
            Act::Take(2, 1, Asks::Anything),
            Act::Solve(3, FIRST, ENABLE, ACTIVE),
            Act::Take(3, 1, Asks::Anything),
            Act::Solve(4, FIRST, ENABLE, ACTIVE),
            Act::Take(4, 1, Asks::Anything),
            Act::Solve(5, SECOND, ENABLE, ACTIVE),
            Act::NotStarted(1),
            Act::Succeed(3, 1, &[1, 2]),
            Act::Set(21, &[2, 9, 7, 8, 6]),
            Act::Solve(5, SECOND, 0, ACTIVE),
            Act::Take(
                3,
                2,
                Asks::Read {
                    route: &[6],
                    start: 8,
                    length: 7,
                },
            ),
        ],
    },
    // A block that waits gives up at once, or ends with the error word of its new registers.
    Script {
        name: "waits_no_more",
        blocks: 5,
        routed: false,
        acts: &[
            Act::Set(1, &READ),
            Act::Solve(1, FIRST, ENABLE, ACTIVE),
            Act::Solve(2, FIRST, ENABLE, ACTIVE),
            Act::Solve(3, FIRST, ENABLE, ACTIVE),
            Act::Solve(4, FIRST, ENABLE, ACTIVE),
            Act::Solve(5, FIRST, ENABLE, ACTIVE),
            Act::Solve(5, FIRST, ENABLE + ABORT, ERROR),
            Act::Has(2, 0x1001),
            Act::Solve(5, FIRST, ENABLE, ACTIVE),
            Act::Set(5, &[2]),
            Act::Solve(5, FIRST, 0, ERROR),
            Act::Has(2, 0x2009),
        ],
    },
    // Calls of the own station have path 0 and do not wait for one another.
    Script {
        name: "local_calls",
        blocks: 3,
        routed: false,
        acts: &[
            Act::Set(1, &OWN_STATISTICS),
            Act::Solve(1, FIRST, ENABLE, ACTIVE),
            Act::Solve(3, FIRST, ENABLE, ACTIVE),
            Act::Solve(2, FIRST, ENABLE, ACTIVE),
            Act::Started(2, 0, 3, Asks::OwnStatistics),
            Act::NotStarted(0),
            Act::NotStarted(4),
            Act::HasStarted(true),
            Act::Take(0, 1, Asks::OwnStatistics),
            Act::Take(0, 3, Asks::OwnStatistics),
            Act::Take(0, 2, Asks::OwnStatistics),
            Act::NotStarted(1),
            Act::HasStarted(false),
        ],
    },
    // A block that is solved twice in a scan, and two blocks on one control block.
    Script {
        name: "shared_control_block",
        blocks: 2,
        routed: false,
        acts: &[
            Act::Set(1, &READ),
            Act::Solve(1, FIRST, ENABLE, ACTIVE),
            Act::Solve(1, FIRST, ENABLE, ACTIVE),
            Act::Solve(2, FIRST, ENABLE, ACTIVE),
            Act::Take(1, 1, Asks::Anything),
            Act::Take(2, 1, Asks::Anything),
            Act::Succeed(2, 1, &[8, 9]),
            Act::Solve(1, FIRST, ENABLE, ACTIVE),
            Act::Solve(2, FIRST, ENABLE, SUCCESS),
            Act::Solve(1, FIRST, ABORT, ERROR),
            Act::Has(2, 0x1001),
            Act::Has(11, 8),
        ],
    },
];

#[test]
fn blocks_go_from_state_to_state(rt: HostRuntime) -> Result<(), AllocError> {
    show(&rt, &SCRIPTS)
}

/// A path that has given its last number is free no more.
const LAST_NUMBERS: [Act; 10] = [
    Act::Set(1, &READ),
    Act::Solve(1, FIRST, ENABLE, ACTIVE),
    Act::Take(1, u32::MAX, Asks::Anything),
    Act::Succeed(1, u32::MAX, &[]),
    Act::Solve(2, FIRST, ENABLE, ACTIVE),
    Act::Take(2, 1, Asks::Anything),
    Act::Set(21, &OWN_STATISTICS),
    Act::Solve(3, SECOND, ENABLE, ACTIVE),
    Act::NotStarted(1),
    Act::Solve(3, SECOND, ABORT, ERROR),
];

#[test]
fn last_numbers(rt: HostRuntime) -> Result<(), AllocError> {
    let mut rig = Rig::late(rt.alloc())?;
    play(&rt, &mut rig, "last_numbers", &LAST_NUMBERS);
    Ok(())
}
