//! Requests that go no further, and the paths of an end.
use crate::trial::{Act, answers};
use std::test::Fail;

/// Sixteen wait; the next one is answered that the bridge has no room. A full bridge still says
/// first what is wrong with a route. Its own address is one of the other network.
const WAITING: [Act; 29] = [
    Act::Takes(9, (2, 1, 1), &[5]),
    Act::Takes(9, (2, 1, 2), &[5]),
    Act::Takes(9, (2, 1, 3), &[5]),
    Act::Takes(9, (2, 1, 4), &[5]),
    Act::Takes(9, (2, 1, 5), &[5]),
    Act::Takes(9, (2, 1, 6), &[5]),
    Act::Takes(9, (2, 1, 7), &[5]),
    Act::Takes(9, (2, 1, 8), &[5]),
    Act::Takes(9, (2, 1, 9), &[5]),
    Act::Takes(9, (2, 1, 10), &[5]),
    Act::Takes(9, (2, 1, 11), &[5]),
    Act::Takes(9, (2, 1, 12), &[5]),
    Act::Takes(9, (2, 1, 13), &[5]),
    Act::Takes(9, (2, 1, 14), &[5]),
    Act::Takes(9, (2, 1, 15), &[5]),
    Act::Takes(9, (2, 1, 16), &[5]),
    Act::Gives(9),
    Act::Takes(9, (2, 1, 17), &[5]),
    Act::Gives(9),
    Act::Takes(9, (2, 2, 1), &[]),
    Act::Takes(9, (2, 2, 2), &[12]),
    Act::Takes(9, (2, 2, 3), &[12, 5]),
    Act::Gives(9),
    Act::Gives(9),
    Act::Gives(9),
    Act::Sends(12),
    Act::Takes(9, (2, 1, 18), &[5]),
    Act::Gives(9),
    Act::IsIdle(9),
];

#[test]
fn sixteen_wait(rt: HostRuntime) -> Result<(), Fail> {
    answers(
        &rt,
        &WAITING,
        "none\nR 2 - 2.1.17 8306\nR 2 - 2.2.1 8301\nR 2 - 2.2.2 830a\nR 2 - 2.2.3 830a\n\
        Q 5 - 12.1.1 0300000002\nnone\ntrue\n",
    )
}

/// An end's own address is one of the network across.
#[test]
fn the_own_address(rt: HostRuntime) -> Result<(), Fail> {
    let acts = [
        Act::Takes(12, (5, 1, 1), &[9]),
        Act::Takes(12, (5, 1, 2), &[12]),
        Act::Gives(12),
        Act::Gives(12),
        Act::Sends(9),
    ];
    answers(
        &rt,
        &acts,
        "R 5 - 5.1.1 830a\nnone\nQ 12 - 9.1.1 0300000002\n",
    )
}

/// Four calls are out; a path that is free again gives its next number.
const PATHS: [Act; 15] = [
    Act::Takes(9, (2, 1, 1), &[5]),
    Act::Takes(9, (2, 1, 2), &[5]),
    Act::Takes(9, (2, 1, 3), &[5]),
    Act::Takes(9, (2, 1, 4), &[5]),
    Act::Takes(9, (2, 1, 5), &[5]),
    Act::Takes(9, (2, 1, 6), &[5]),
    Act::Sends(12),
    Act::Sends(12),
    Act::Sends(12),
    Act::Sends(12),
    Act::Sends(12),
    Act::HearsWord(12, (12, 3, 1), 0x6103),
    Act::Sends(12),
    Act::Sends(12),
    Act::Gives(9),
];

#[test]
fn four_paths(rt: HostRuntime) -> Result<(), Fail> {
    answers(
        &rt,
        &PATHS,
        "Q 5 - 12.1.1 0300000002\nQ 5 - 12.2.1 0300000002\nQ 5 - 12.3.1 0300000002\n\
        Q 5 - 12.4.1 0300000002\nnone\nQ 5 - 12.3.2 0300000002\nnone\nR 2 - 2.1.3 830a\n",
    )
}
