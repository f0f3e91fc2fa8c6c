//! A history that is followed entry by entry.
use crate::trial::{Act, followed, played};
use std::test::Fail;

/// One of each entry.
const ACTS: [Act; 6] = [
    Act::Takes(9, (2, 1, 1), &[5]),
    Act::Takes(9, (2, 2, 1), &[12]),
    Act::Sends(12),
    Act::HearsReply(12, (12, 1, 1)),
    Act::Gives(9),
    Act::Leaves(12),
];

/// What a bridge did is followed whole; without its first request no further than the second.
#[test]
fn a_history_is_followed(rt: HostRuntime) -> Result<(), Fail> {
    let (bridge, _) = played(rt.alloc(), &ACTS)?;
    let count = followed(rt.alloc(), bridge.history())?;
    let rest = bridge.history().get(1..).unwrap_or(&[]);
    let behind_the_first = followed(rt.alloc(), rest)?;
    assert_eq!(rt; count, 6);
    assert_eq!(rt; behind_the_first, 1);
    Ok(())
}
