//! Tapes alone, and written by crews of threads.
use gated_tape::{Crew, Mark, PutNo, Tape, write_both, write_in_turns};
use std::test::*;

/// The words of a node's marks, as they come, are the numbers from 0 to below `count`.
fn counts_up(marks: &[Mark], node: u32, count: u64) -> bool {
    let mut next = 0u64;
    for mark in marks {
        if mark.node == node {
            if mark.word != next {
                return false;
            }
            next = next.saturating_add(1);
        }
    }
    next == count
}

#[test]
fn two_plain_tapes(rt: HostRuntime) -> Result<(), Fail> {
    let mut first = Tape::new(rt.alloc(), 9);
    let mut second = Tape::new(rt.alloc(), 3);
    assert_eq!(rt; write_both(&mut first, &mut second, 7, 2), Ok(()));
    assert_eq!(rt; first.count(7), 2);
    assert_eq!(rt; first.count(4), 0);
    assert_eq!(rt; write_both(&mut first, &mut second, 7, 9), Err(PutNo::Full));
    assert!(rt; counts_up(first.marks(), 7, 4));
    assert!(rt; counts_up(second.marks(), 7, 3));
    assert_eq!(rt; second.put(7, 3), Err(PutNo::Full));
    Ok(())
}

/// The tape has each writer's marks up to the count, and no others.
fn is_written(tape: &Tape, writers: u32, count: u64) -> bool {
    for node in 0..writers {
        if !counts_up(tape.marks(), node.saturating_add(1), count) {
            return false;
        }
    }
    tape.marks().len() as u64 == count.saturating_mul(u64::from(writers))
}

#[test]
fn each_in_its_own_order(rt: HostRuntime) -> Result<(), Fail> {
    let crews = [(1, 1, 5), (2, 2, 1000), (32, 4, 40), (3, 8, 0), (0, 1, 9)];
    for (writers, threads, count) in crews {
        let crew = Crew {
            writers,
            threads,
            count,
            limit: 2000,
        };
        let written = write_in_turns(&rt, rt.alloc(), crew)?;
        assert_eq!(rt; written.ended, Ok(()));
        assert!(rt;
            is_written(&written.first, writers, count),
            "{writers} writers"
        );
        assert!(rt;
            is_written(&written.second, writers, count),
            "{writers} writers"
        );
    }
    Ok(())
}

#[test]
fn full_tapes(rt: HostRuntime) -> Result<(), Fail> {
    let crew = Crew {
        writers: 3,
        threads: 2,
        count: 50,
        limit: 20,
    };
    let written = write_in_turns(&rt, rt.alloc(), crew)?;
    assert_eq!(rt; written.ended, Err(PutNo::Full));
    assert_eq!(rt; written.first.marks().len(), 20);
    assert!(rt; written.second.marks().len() <= 20);
    Ok(())
}
