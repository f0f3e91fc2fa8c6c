//! What a power failure leaves of each state.
use super::acts::{Act, Asks, Script, show};
use super::rig::{ABORT, ACTIVE, ENABLE, ERROR, FIRST, READ, SECOND};
use std::alloc::AllocError;

const SCRIPTS: [Script; 6] = [
    // An idle block stays idle.
    Script {
        name: "idle_at_a_failure",
        blocks: 1,
        routed: false,
        acts: &[
            Act::Set(1, &READ),
            Act::PowerFails,
            Act::Solve(1, FIRST, 0, 0),
            Act::Has(2, 9),
            Act::Solve(1, FIRST, ENABLE, ACTIVE),
        ],
    },
    // A call that was not taken before a failure is taken behind it, and its block tells nothing until
    // it ends.
    Script {
        name: "not_taken_at_a_failure",
        blocks: 1,
        routed: false,
        acts: &[
            Act::Set(1, &READ),
            Act::Solve(1, FIRST, ENABLE, ACTIVE),
            Act::PowerFails,
            Act::HasStarted(true),
            Act::Solve(1, FIRST, ENABLE, 0),
            Act::Take(
                1,
                1,
                Asks::Read {
                    route: &[5],
                    start: 1,
                    length: 2,
                },
            ),
            Act::Solve(1, FIRST, ENABLE, 0),
            Act::Succeed(1, 1, &[42, 43]),
            Act::Has(2, 0),
            Act::Has(11, 0),
            Act::Solve(1, FIRST, ENABLE, ACTIVE),
            Act::Take(1, 2, Asks::Anything),
        ],
    },
    // A call that was taken goes on, and holds its path until it ends.
    Script {
        name: "taken_at_a_failure",
        blocks: 2,
        routed: false,
        acts: &[
            Act::Set(1, &READ),
            Act::Solve(1, FIRST, ENABLE, ACTIVE),
            Act::Take(1, 1, Asks::Anything),
            Act::PowerFails,
            Act::IsOut(1, 1, true),
            Act::Solve(1, FIRST, ABORT, 0),
            Act::Has(2, 0),
            Act::Solve(2, FIRST, ENABLE, ACTIVE),
            Act::Take(2, 1, Asks::Anything),
            Act::Succeed(1, 1, &[42]),
            Act::Solve(1, FIRST, 0, 0),
        ],
    },
    // A call that was given up before goes on too.
    Script {
        name: "given_up_at_a_failure",
        blocks: 1,
        routed: false,
        acts: &[
            Act::Set(1, &READ),
            Act::Solve(1, FIRST, ENABLE, ACTIVE),
            Act::Solve(1, FIRST, ABORT, ERROR),
            Act::PowerFails,
            Act::Take(1, 1, Asks::Anything),
            Act::Has(2, 0x1001),
            Act::Succeed(1, 1, &[42]),
            Act::Solve(1, FIRST, ENABLE, ACTIVE),
        ],
    },
    // A result that no solve has told is gone, and the block starts anew.
    Script {
        name: "ready_at_a_failure",
        blocks: 1,
        routed: false,
        acts: &[
            Act::Set(1, &READ),
            Act::Solve(1, FIRST, ENABLE, ACTIVE),
            Act::Take(1, 1, Asks::Anything),
            Act::Succeed(1, 1, &[42, 43]),
            Act::PowerFails,
            Act::Solve(1, FIRST, 0, 0),
            Act::Has(11, 0),
            Act::Solve(1, FIRST, ENABLE, ACTIVE),
            Act::Take(1, 2, Asks::Anything),
        ],
    },
    // A block that waits for a path waits no more.
    Script {
        name: "waiting_at_a_failure",
        blocks: 5,
        routed: false,
        acts: &[
            Act::Set(1, &READ),
            Act::Set(21, &READ),
            Act::Solve(1, FIRST, ENABLE, ACTIVE),
            Act::Solve(2, FIRST, ENABLE, ACTIVE),
            Act::Solve(3, FIRST, ENABLE, ACTIVE),
            Act::Solve(4, FIRST, ENABLE, ACTIVE),
            Act::Solve(5, SECOND, ENABLE, ACTIVE),
            Act::PowerFails,
            Act::Solve(5, SECOND, 0, 0),
            Act::Solve(4, FIRST, ENABLE, 0),
        ],
    },
];

#[test]
fn power_fails_in_each_state(rt: HostRuntime) -> Result<(), AllocError> {
    show(&rt, &SCRIPTS)
}
