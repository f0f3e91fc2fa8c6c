//! Each refusal of each call, and which comes first where several fit.
use crate::script::plays;
use std::test::Fail;

const SCRIPT: &str = "\
# Whoever does not hold the token is told so first, whatever else is wrong.
D 2 5
2 asks 5 1 1 = Done
2 sends = Heard(Acked)
2 passes = Done
2 asks 5 1 2 = No(NotHolder(5))
2 replies 5 1 1 = No(NotHolder(5))
2 sends = No(NotHolder(5))
2 takes = No(NotHolder(5))
2 clears 2 0 1 = No(NotHolder(5))
2 gives_up 1 1 = No(NotHolder(5))
2 gives_up 2 1 = No(NotHolder(5))
2 passes = No(NotHolder(5))
2 ends = No(NotHolder(5))
2 is_spent = No(NotHolder(5))
# Both boxes are full and it is too early: the outbox is told, then the inbox, then the time.
D 2 5
2 asks 5 1 1 = Done
2 asks 5 2 1 = Done
2 passes = No(Unsent(2))
2 sends = Heard(Acked)
2 sends = Heard(Acked)
2 passes = Done
5 asks 2 1 1 = Done
5 passes = No(Unsent(1))
5 is_spent = No(Unsent(1))
5 sends = Heard(Acked)
5 passes = No(Untaken(2))
5 ends = No(Untaken(2))
5 takes = Request(2, 1, 1)
5 passes = No(Untaken(1))
5 takes = Request(2, 2, 1)
5 ends = No(NotDue { held: 0, needed: 1 })
5 is_spent = No(NotDue { held: 0, needed: 3 })
5 passes = Done
# A path is taken for a Request alone: a Reply on a path of that number is let through.
D 2 5
2 sends = No(NothingToSend)
2 asks 5 4 3 = Done
2 asks 5 4 4 = No(PathTaken(3))
2 replies 5 4 4 = Done
2 asks 5 3 4 = Done
2 passes_done = No(Unsent(3))
";

#[test]
fn refusals_of_each_call(rt: HostRuntime) -> Result<(), Fail> {
    plays(&rt, rt.alloc(), SCRIPT)
}
