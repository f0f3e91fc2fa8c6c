//! How a node that lost its power comes in again.
use crate::script::plays;
use std::test::Fail;

const SCRIPT: &str = "\
# A member does not ask, and nobody asks twice; the call of the least path is given up first.
D 2 5
2 joins = No(NotAway)
5 joins = No(NotAway)
2 passes = Done
5 asks 2 3 4 = Done
5 asks 2 2 7 = Done
5 is_down 1 = Done
5 joins = No(PathTaken(7))
5 gives_up 2 7 = NobodyThere
5 joins = No(PathTaken(4))
5 gives_up 3 4 = NobodyThere
5 joins = Done
5 stands = Stands(Asking)
5 joins = No(NotAway)
2 passes = Done
5 stands = Stands(In)
5 joins = No(NotAway)
# One that left for good does not ask; that is told before its paths are.
D 2 5
2 passes_done = Done
5 passes_done = Done
2 asks 5 1 1 = Done
2 sends = Heard(Acked)
2 ends = Done
2 stands = Stands(Gone)
2 joins = No(NotAway)
# So is a call whose reply was lost with the inbox, and one that failed, with the word it has.
DDLLL 2 5
2 asks 5 4 1 = Done
2 sends = Heard(Acked)
2 passes = Done
5 takes = Request(2, 4, 1)
5 replies 2 4 1 = Done
5 sends = Heard(Acked)
5 passes = Done
2 asks 5 1 2 = Done
2 sends = Heard(Silent)
2 sends = Heard(Silent)
2 sends = Heard(Silent)
2 is_down 1 = Done
2 takes = No(NotMember)
2 joins = No(PathTaken(2))
2 gives_up 1 2 = NoAnswer
2 joins = No(PathTaken(1))
2 gives_up 4 1 = NobodyThere
2 joins = Done
# It comes in as the token is passed, and is the next to hold it.
D 2 5
2 passes = Done
5 is_down 1 = Done
2 passes = Done
2 sees = Sees { holder: 2, next: 2 }
5 joins = Done
2 sees = Sees { holder: 2, next: 2 }
2 passes = Done
5 sees = Sees { holder: 5, next: 2 }
# Where another comes next it waits for its turn.
D 2 5 64
2 passes = Done
5 is_down 1 = Done
5 joins = Done
64 passes = Done
2 sees = Sees { holder: 2, next: 5 }
# It comes in as another leaves, and holds the token then; nobody waits for who only asks.
D 2 5
2 passes_done = Done
5 is_down 1 = Done
5 joins = Done
2 ends = Done
5 stands = Stands(In)
2 sees = Sees { holder: 5, next: 5 }
# It does where the other loses its power.
D 2 5
2 passes = Done
5 is_down 1 = Done
5 joins = Done
2 is_down 1 = Done
5 stands = Stands(In)
2 stands = Stands(Away)
2 sees = Sees { holder: 5, next: 5 }
# Where nobody holds the token it is in at once and holds it, and the next who asks waits.
D 2 5
2 passes = Done
5 is_down 1 = Done
2 is_down 1 = Done
5 sees = Sees { holder: 0, next: 0 }
5 joins = Done
5 stands = Stands(In)
5 sees = Sees { holder: 5, next: 5 }
2 joins = Done
2 stands = Stands(Asking)
5 passes = Done
2 sees = Sees { holder: 2, next: 5 }
# What is let through of a node that is away, or asks, and what is not.
D 2 5
2 passes = Done
5 is_down 1 = Done
5 sends = No(NotMember)
5 takes = No(NotMember)
5 passes = No(NotMember)
5 is_spent = No(NotMember)
5 is_down 2 = No(NotMember)
5 replies 2 1 1 = Done
5 asks 2 1 1 = Done
5 asks 2 1 2 = No(PathTaken(1))
5 gives_up 1 1 = NobodyThere
5 joins = Done
5 sends = No(NotMember)
5 takes = No(NotMember)
5 passes = No(NotMember)
5 is_spent = No(NotMember)
5 is_down 2 = No(NotMember)
5 asks 2 1 2 = Done
5 gives_up 1 2 = NobodyThere
5 asks 2 1 3 = Done
2 passes = Done
5 sends = Heard(Acked)
5 sends = Heard(Acked)
5 passes = Done
2 takes = Request(5, 1, 3)
# Nobody hears what goes to a node that is away, or only asks.
D 2 5
2 passes = Done
5 is_down 1 = Done
2 asks 5 1 1 = Done
2 sends = Heard(Silent)
2 sends = Heard(Silent)
5 joins = Done
2 sends = Heard(Silent)
2 gives_up 1 1 = NobodyThere
2 asks 5 1 2 = Done
2 sends = Heard(Silent)
2 sends = Heard(Silent)
2 sends = Heard(Silent)
2 gives_up 1 2 = NobodyThere
2 passes = Done
5 takes = Nothing
";

#[test]
fn how_nodes_come_back(rt: HostRuntime) -> Result<(), Fail> {
    plays(&rt, rt.alloc(), SCRIPT)
}
