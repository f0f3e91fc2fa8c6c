//! When a call can be given up, and with which word.
use crate::script::plays;
use std::test::Fail;

const SCRIPT: &str = "\
# Two own Passes are needed: none, one, two.
D 2 5
2 gives_up 1 1 = No(NotAwaited(0))
2 asks 5 1 1 = Done
2 gives_up 1 2 = No(NotAwaited(1))
2 gives_up 2 1 = No(NotAwaited(0))
2 gives_up 1 1 = No(NotDue { held: 0, needed: 2 })
2 sends = Heard(Acked)
2 passes = Done
2 gives_up 1 1 = No(NotHolder(5))
5 takes = Request(2, 1, 1)
5 passes = Done
2 gives_up 1 1 = No(NotDue { held: 1, needed: 2 })
2 passes = Done
5 passes = Done
2 gives_up 1 1 = NoAnswer
2 gives_up 1 1 = No(NotAwaited(0))
# A reply that has arrived is to be taken; another number is told first.
D 2 5
2 asks 5 1 1 = Done
2 sends = Heard(Acked)
2 passes = Done
5 takes = Request(2, 1, 1)
5 replies 2 1 1 = Done
5 sends = Heard(Acked)
5 passes = Done
2 gives_up 1 9 = No(NotAwaited(1))
2 gives_up 1 1 = No(Untaken(1))
2 asks 5 1 2 = No(PathTaken(1))
2 takes = Reply(2, 1, 1)
2 gives_up 1 1 = No(NotAwaited(0))
# A call that failed is given up at once, with the word of its failure.
L 2 5
2 asks 5 1 1 = Done
2 sends = Heard(Silent)
2 sends = Heard(Silent)
2 sends = Heard(Silent)
2 asks 5 1 2 = No(PathTaken(1))
2 gives_up 1 2 = No(NotAwaited(1))
2 gives_up 1 1 = NoAnswer
2 asks 9 2 1 = Done
2 sends = Heard(Silent)
2 sends = Heard(Silent)
2 sends = Heard(Silent)
2 gives_up 2 1 = NobodyThere
# The target has left by then: 6103.
D 2 5
2 passes_done = Done
5 passes_done = Done
2 asks 5 1 1 = Done
2 sends = Heard(Acked)
2 passes_done = Done
5 takes = Request(2, 1, 1)
5 ends = Done
2 gives_up 1 1 = No(NotDue { held: 1, needed: 2 })
2 passes_done = Done
2 gives_up 1 1 = NobodyThere
# The caller has left: at once, with 6103; what failed keeps its own word.
DLLL 2 5
2 passes_done = Done
5 passes_done = Done
2 asks 5 1 1 = Done
2 asks 5 2 1 = Done
2 sends = Heard(Acked)
2 sends = Heard(Silent)
2 sends = Heard(Silent)
2 sends = Heard(Silent)
2 ends = Done
2 gives_up 1 2 = No(NotAwaited(1))
2 gives_up 1 1 = NobodyThere
2 gives_up 2 1 = NoAnswer
2 asks 5 3 1 = Done
2 gives_up 3 1 = NobodyThere
2 gives_up 3 1 = No(NotAwaited(0))
# The frame of a call that is given up leaves the outbox, and the next one has three tries.
L 2 5
2 passes_done = Done
5 passes_done = Done
2 asks 5 1 1 = Done
2 sends = Heard(Silent)
2 sends = Heard(Silent)
2 asks 5 2 1 = Done
2 passes_done = No(Unsent(2))
2 sends = Heard(Silent)
2 sends = Heard(Silent)
2 sends = Heard(Silent)
2 gives_up 2 1 = No(NotDue { held: 0, needed: 2 })
2 sends = Heard(Silent)
2 gives_up 2 1 = NoAnswer
";

#[test]
fn calls_that_are_given_up(rt: HostRuntime) -> Result<(), Fail> {
    plays(&rt, rt.alloc(), SCRIPT)
}
