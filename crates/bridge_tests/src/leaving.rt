//! An end that leaves for good.
use crate::trial::{Act, answers};
use std::test::Fail;

/// What it had to send is answered at the other end; what comes later too.
const ACTS: [Act; 13] = [
    Act::Takes(9, (2, 1, 1), &[5]),
    Act::Takes(9, (3, 1, 1), &[6]),
    Act::Takes(9, (2, 2, 1), &[5]),
    Act::IsIdle(12),
    Act::Leaves(12),
    Act::Gives(9),
    Act::Gives(9),
    Act::Gives(9),
    Act::Gives(9),
    Act::Takes(9, (2, 1, 2), &[5]),
    Act::Gives(9),
    Act::IsOpen(9),
    Act::IsOpen(12),
];

#[test]
fn an_end_leaves(rt: HostRuntime) -> Result<(), Fail> {
    answers(
        &rt,
        &ACTS,
        "false\nR 2 - 2.1.1 830a\nR 3 - 3.1.1 830a\nR 2 - 2.2.1 830a\nnone\n\
        R 2 - 2.1.2 830a\ntrue\nfalse\n",
    )
}
