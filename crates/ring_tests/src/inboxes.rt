//! What becomes of frames at their target: full inboxes, repeats, late Replies.
use crate::script::plays;
use std::test::Fail;

const SCRIPT: &str = "\
# Four Requests of node 2 wait at node 5; the fifth, of node 3, is turned away.
D 2 3 5
2 asks 5 1 1 = Done
2 asks 5 2 1 = Done
2 asks 5 3 1 = Done
2 asks 5 4 1 = Done
2 sends = Heard(Acked)
2 sends = Heard(Acked)
2 sends = Heard(Acked)
2 sends = Heard(Acked)
2 passes = Done
3 asks 5 1 1 = Done
3 sends = Heard(Busy)
3 sends = No(NothingToSend)
3 gives_up 1 1 = InboxFull
3 passes = Done
5 takes = Request(2, 1, 1)
5 takes = Request(2, 2, 1)
5 takes = Request(2, 3, 1)
5 takes = Request(2, 4, 1)
5 takes = Nothing
# The acknowledgement of the fourth is lost: sent again it is a repeat, and no Busy is told.
DDDAD 2 5
2 asks 5 1 1 = Done
2 asks 5 2 1 = Done
2 asks 5 3 1 = Done
2 asks 5 4 1 = Done
2 sends = Heard(Acked)
2 sends = Heard(Acked)
2 sends = Heard(Acked)
2 sends = Heard(Silent)
2 sends = Heard(Acked)
2 passes = Done
5 passes = No(Untaken(4))
# Replies do not count toward the four: node 2 has four of them, and a Request besides.
D 2 5
2 asks 5 1 1 = Done
2 asks 5 2 1 = Done
2 asks 5 3 1 = Done
2 asks 5 4 1 = Done
2 sends = Heard(Acked)
2 sends = Heard(Acked)
2 sends = Heard(Acked)
2 sends = Heard(Acked)
2 passes = Done
5 takes = Request(2, 1, 1)
5 replies 2 1 1 = Done
5 sends = Heard(Acked)
5 takes = Request(2, 2, 1)
5 replies 2 2 1 = Done
5 sends = Heard(Acked)
5 takes = Request(2, 3, 1)
5 replies 2 3 1 = Done
5 sends = Heard(Acked)
5 takes = Request(2, 4, 1)
5 replies 2 4 1 = Done
5 sends = Heard(Acked)
5 asks 2 1 1 = Done
5 sends = Heard(Acked)
5 passes = Done
2 passes = No(Untaken(5))
2 takes = Reply(2, 1, 1)
# A Reply to a call that was given up is acknowledged and dropped.
D 2 5
2 asks 5 1 1 = Done
2 sends = Heard(Acked)
2 passes = Done
5 takes = Request(2, 1, 1)
5 passes = Done
2 passes = Done
5 passes = Done
2 gives_up 1 1 = NoAnswer
2 passes = Done
5 replies 2 1 1 = Done
5 sends = Heard(Acked)
5 passes = Done
2 takes = Nothing
# The path is out for the next number by then: a late Reply to the first is no Reply to it.
AAAD 2 5
2 asks 5 1 1 = Done
2 sends = Heard(Silent)
2 sends = Heard(Silent)
2 sends = Heard(Silent)
2 gives_up 1 1 = NoAnswer
2 asks 5 1 7 = Done
2 sends = Heard(Acked)
2 passes = Done
5 takes = Request(2, 1, 1)
5 takes = Request(2, 1, 7)
5 replies 2 1 1 = Done
5 replies 2 1 7 = Done
5 sends = Heard(Silent)
5 sends = Heard(Silent)
5 sends = Heard(Silent)
5 sends = Heard(Acked)
5 passes = Done
2 takes = Reply(2, 1, 7)
2 takes = Nothing
";

#[test]
fn frames_at_their_target(rt: HostRuntime) -> Result<(), Fail> {
    plays(&rt, rt.alloc(), SCRIPT)
}
