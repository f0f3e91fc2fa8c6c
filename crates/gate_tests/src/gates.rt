//! A value goes through a gate, and is dropped once.
use std::sync::atomic::{AtomicU64, Ordering};
use std::test::*;
use turn_gate::{Gate, Journal};

/// A value with no entries that counts how often it is dropped.
struct Slate<'a> {
    drops: &'a AtomicU64,
    word: u64,
}

impl Drop for Slate<'_> {
    fn drop(self) {
        let Slate { drops, word: _ } = self;
        drops.fetch_add(1, Ordering::SeqCst);
    }
}

impl Journal for Slate<'_> {
    ghost use Rattle.std.specs.Prelude.{[]};

    type Entry = u32;

    type Fixed = u32;

    ghost entries = { λ _. [] };

    ghost fixed = { λ _. 0 };

    ghost maker = { λ n. n };
}

#[test]
fn a_value_goes_in_and_out(rt: HostRuntime) {
    let drops = AtomicU64::new(0);
    let slate = Slate {
        drops: &drops,
        word: 2,
    };
    if let Ok((gate, zero)) = Gate::new(rt.alloc(), slate) {
        let (zero, mut seven) = gate.split(zero, 7);
        let mut held = gate.enter(&rt, &mut seven);
        held.value().word = 5;
        gate.leave(&mut seven, held);
        let mut zero = gate.join(zero, seven);
        let mut held = gate.enter(&rt, &mut zero);
        let found = held.value().word;
        gate.leave(&mut zero, held);
        let slate = gate.close(zero);
        assert_eq!(rt; found, 5);
        assert_eq!(rt; slate.word, 5);
        assert_eq!(rt; drops.load(Ordering::SeqCst), 0);
        drop(slate);
    }
    assert_eq!(rt;
        drops.load(Ordering::SeqCst),
        1,
        "dropped where memory is short, too"
    );
}
