//! Searches of a dial, by hand: what each number of moves leads to.
use crate::Turns;
use state_space::{Answer, explore};
use std::alloc::{AllocError, Global};
use std::test::Fail;

/// What a search of a dial of ten marks answers, in words.
fn told(alloc: Global, bad: u16, limit: Option<usize>) -> Result<String, AllocError> {
    let dial = Turns { marks: 10, bad };
    match explore(alloc, &dial, &mut (), limit)? {
        Answer::Holds { states } => format!(in alloc; "holds {states}"),
        Answer::Fails { path } => format!(in alloc; "fails {path:?}"),
    }
}

// From 0: 1; from 1: 2; from 2: 3 and 4; from 3 and 4: 4, 6, 5 and 8; then 7, 9 and 0.
#[test]
fn all_marks_are_found(rt: HostRuntime) -> Result<(), Fail> {
    assert_eq!(rt; told(rt.alloc(), 10, None)?.as_str(), "holds 10");
    Ok(())
}

#[test]
fn marks_within_three_moves(rt: HostRuntime) -> Result<(), Fail> {
    assert_eq!(rt; told(rt.alloc(), 5, Some(3))?.as_str(), "holds 5");
    Ok(())
}

#[test]
fn the_start_alone(rt: HostRuntime) -> Result<(), Fail> {
    assert_eq!(rt; told(rt.alloc(), 5, Some(0))?.as_str(), "holds 1");
    assert_eq!(rt; told(rt.alloc(), 0, Some(0))?.as_str(), "fails []");
    Ok(())
}

// 0, 1, 2, 4, 5.
#[test]
fn five_in_four_moves(rt: HostRuntime) -> Result<(), Fail> {
    assert_eq!(rt;
        told(rt.alloc(), 5, Some(4))?.as_str(),
        "fails [0, 0, 1, 0]"
    );
    Ok(())
}

// 0, 1, 2, 4, 8, 9.
#[test]
fn nine_in_five_moves(rt: HostRuntime) -> Result<(), Fail> {
    assert_eq!(rt;
        told(rt.alloc(), 9, None)?.as_str(),
        "fails [0, 0, 1, 1, 0]"
    );
    Ok(())
}
