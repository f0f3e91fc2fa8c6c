//! Calls over the bridge, from their requests to their replies.
use crate::trial::{Act, answers, lines, played};
use std::test::Fail;

/// A node behind the bridge answers.
const ANSWERED: [Act; 6] = [
    Act::Takes(9, (2, 1, 1), &[5]),
    Act::Sends(9),
    Act::Sends(12),
    Act::HearsReply(12, (12, 1, 1)),
    Act::Gives(12),
    Act::Gives(9),
];

#[test]
fn a_call_comes_back(rt: HostRuntime) -> Result<(), Fail> {
    let (bridge, text) = played(rt.alloc(), &ANSWERED)?;
    let history = bridge.into_history();
    let lines = lines(rt.alloc(), history.as_slice())?;
    assert_eq!(rt;
        text.as_str(),
        "none\nQ 5 - 12.1.1 0300000002\nnone\nR 2 - 2.1.1 0304002a002b\n"
    );
    assert_eq!(rt;
        lines.as_str(),
        "T 9 2.1.1 5 0300000002\nU 12 2.1.1 12.1.1 5 0300000002\n\
        A 12 12.1.1 R 0304002a002b\nV 9 2.1.1 0304002a002b\n"
    );
    Ok(())
}

/// The codes for words: 10 where nobody is there, else 11.
#[test]
fn a_call_without_a_reply(rt: HostRuntime) -> Result<(), Fail> {
    for (word, want) in [
        (0x6103, "Q 6 - 12.1.1 0300000002\nR 2 - 2.1.1 830a\n"),
        (0x6101, "Q 6 - 12.1.1 0300000002\nR 2 - 2.1.1 830b\n"),
        (0x6105, "Q 6 - 12.1.1 0300000002\nR 2 - 2.1.1 830b\n"),
    ] {
        let acts = [
            Act::Takes(9, (2, 1, 1), &[6]),
            Act::Sends(12),
            Act::HearsWord(12, (12, 1, 1), word),
            Act::Gives(9),
        ];
        answers(&rt, &acts, want)?;
    }
    Ok(())
}

/// What is left of a route goes on with the frame.
#[test]
fn a_call_over_two_bridges(rt: HostRuntime) -> Result<(), Fail> {
    let acts = [Act::Takes(12, (5, 3, 7), &[20, 21, 22]), Act::Sends(9)];
    answers(&rt, &acts, "Q 20 21.22 9.1.1 0300000002\n")
}

/// Each end answers its own network, also where both were asked under like names.
const FROM_BOTH: [Act; 10] = [
    Act::Takes(9, (2, 1, 1), &[5]),
    Act::Takes(12, (5, 1, 1), &[2]),
    Act::Sends(12),
    Act::Sends(9),
    Act::HearsWord(9, (9, 1, 1), 0x6101),
    Act::HearsReply(12, (12, 1, 1)),
    Act::IsIdle(9),
    Act::Gives(12),
    Act::Gives(9),
    Act::IsIdle(9),
];

#[test]
fn calls_from_both_sides(rt: HostRuntime) -> Result<(), Fail> {
    answers(
        &rt,
        &FROM_BOTH,
        "Q 5 - 12.1.1 0300000002\nQ 2 - 9.1.1 0300000002\nfalse\n\
        R 5 - 5.1.1 830b\nR 2 - 2.1.1 0304002a002b\ntrue\n",
    )
}
