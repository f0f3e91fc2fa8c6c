//! How the token goes round, who leaves, and who holds the token then.
use crate::script::plays;
use std::test::Fail;

const SCRIPT: &str = "\
# The token goes round, to the least behind the greatest.
D 2 5 64
5 passes = No(NotHolder(2))
5 ends = No(NotHolder(2))
2 passes_done = Done
2 sees = Sees { holder: 5, next: 5 }
5 ends = No(NotDue { held: 0, needed: 1 })
5 passes_done = Done
64 sees = Sees { holder: 64, next: 2 }
64 passes_done = Done
2 passes_done = Done
5 ends = Done
5 sees = Sees { holder: 64, next: 64 }
64 passes_done = Done
2 passes_done = Done
2 sees = Sees { holder: 64, next: 64 }
5 passes = No(NotMember)
# One alone passes the token to itself.
D 7
7 passes = Done
7 sees = Sees { holder: 7, next: 7 }
# The greatest leaves to the least, the least to the one above, and the last to nobody.
D 2 5 64
2 passes_done = Done
5 passes_done = Done
64 passes_done = Done
2 passes_done = Done
5 passes_done = Done
64 ends = Done
2 sees = Sees { holder: 2, next: 5 }
2 ends = Done
5 sees = Sees { holder: 5, next: 5 }
5 ends = Done
2 sees = Sees { holder: 0, next: 0 }
# One that is neither leaves to the next above; who has left is never handed the token.
D 2 5 64
2 passes_done = Done
5 passes_done = Done
64 passes_done = Done
2 passes_done = Done
5 ends = Done
2 passes_done = No(NotHolder(64))
5 passes_done = No(NotMember)
64 passes_done = Done
2 passes_done = Done
2 sees = Sees { holder: 64, next: 64 }
# After a Pass that says that there is more to do the count starts again, for all members.
D 2 5
2 ends = No(NotDue { held: 0, needed: 1 })
2 passes_done = Done
5 ends = No(NotDue { held: 0, needed: 1 })
5 passes_done = Done
2 passes = Done
5 ends = No(NotDue { held: 0, needed: 1 })
5 passes_done = Done
2 passes_done = Done
5 ends = Done
2 ends = Done
2 sees = Sees { holder: 0, next: 0 }
# Three Passes are used up, whatever they said.
D 7
7 is_spent = No(NotDue { held: 0, needed: 3 })
7 passes = Done
7 passes_done = Done
7 is_spent = No(NotDue { held: 2, needed: 3 })
7 passes = Done
7 ends = No(NotDue { held: 0, needed: 1 })
7 is_spent = Done
7 is_spent = No(NotMember)
7 sees = Sees { holder: 0, next: 0 }
# What is let through of a node that has left, and what is not.
D 2 5
2 passes_done = Done
5 passes_done = Done
2 ends = Done
2 sends = No(NotMember)
2 takes = No(NotMember)
2 is_spent = No(NotMember)
2 asks 5 1 1 = Done
2 asks 5 1 2 = No(PathTaken(1))
2 replies 5 1 1 = Done
2 gives_up 1 1 = NobodyThere
5 takes = Nothing
";

#[test]
fn the_token_and_who_leaves(rt: HostRuntime) -> Result<(), Fail> {
    plays(&rt, rt.alloc(), SCRIPT)
}
