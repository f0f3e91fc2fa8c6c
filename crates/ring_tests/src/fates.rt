//! What becomes of a Request of node 2 to node 5, by the letters of its transmissions.
use crate::script::plays;
use std::test::Fail;

const SCRIPT: &str = "\
# It is delivered.
D 2 5
2 asks 5 1 1 = Done
2 sends = Heard(Acked)
2 sends = No(NothingToSend)
2 passes = Done
5 takes = Request(2, 1, 1)
5 takes = Nothing
# It is lost three times: the third Silent is the last, and the target has nothing.
L 2 5
2 asks 5 1 1 = Done
2 sends = Heard(Silent)
2 sends = Heard(Silent)
2 sends = Heard(Silent)
2 sends = No(NothingToSend)
2 gives_up 1 1 = NoAnswer
2 passes = Done
5 takes = Nothing
# It is lost three times, by three letters.
LLL 2 5
2 asks 5 1 1 = Done
2 sends = Heard(Silent)
2 sends = Heard(Silent)
2 sends = Heard(Silent)
2 sends = No(NothingToSend)
2 gives_up 1 1 = NoAnswer
2 passes = Done
5 takes = Nothing
# Its acknowledgements are lost: the call ends with 6101, and the target has it once.
A 2 5
2 asks 5 1 1 = Done
2 sends = Heard(Silent)
2 sends = Heard(Silent)
2 sends = Heard(Silent)
2 gives_up 1 1 = NoAnswer
2 passes = Done
5 takes = Request(2, 1, 1)
5 takes = Nothing
# It is lost, then delivered and not acknowledged, then lost: the target has it once.
LA 2 5
2 asks 5 1 1 = Done
2 sends = Heard(Silent)
2 sends = Heard(Silent)
2 sends = Heard(Silent)
2 sends = No(NothingToSend)
2 gives_up 1 1 = NoAnswer
2 passes = Done
5 takes = Request(2, 1, 1)
5 takes = Nothing
# Sent again after a lost acknowledgement it is a repeat, which is acknowledged and dropped.
AD 2 5
2 asks 5 1 1 = Done
2 sends = Heard(Silent)
2 sends = Heard(Acked)
2 passes = Done
5 takes = Request(2, 1, 1)
5 takes = Nothing
# It is delivered the third time.
LLD 2 5
2 asks 5 1 1 = Done
2 sends = Heard(Silent)
2 sends = Heard(Silent)
2 sends = Heard(Acked)
2 passes = Done
5 takes = Request(2, 1, 1)
5 takes = Nothing
# A Send to nobody takes its letter too: the fourth is that of the second Request.
DDDLD 2 5
2 asks 9 1 1 = Done
2 asks 5 2 1 = Done
2 sends = Heard(Silent)
2 sends = Heard(Silent)
2 sends = Heard(Silent)
2 gives_up 1 1 = NobodyThere
2 sends = Heard(Silent)
2 sends = Heard(Acked)
# The same request is asked again under the next number alone, and is then another call.
AAAD 2 5
2 asks 5 1 1 = Done
2 sends = Heard(Silent)
2 sends = Heard(Silent)
2 sends = Heard(Silent)
2 asks 5 1 2 = No(PathTaken(1))
2 gives_up 1 1 = NoAnswer
2 asks 5 1 2 = Done
2 sends = Heard(Acked)
2 passes = Done
5 takes = Request(2, 1, 1)
5 takes = Request(2, 1, 2)
";

#[test]
fn fates_of_a_request(rt: HostRuntime) -> Result<(), Fail> {
    plays(&rt, rt.alloc(), SCRIPT)
}
