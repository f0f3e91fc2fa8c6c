//! What a node that loses its power leaves behind, and what it keeps.
use crate::script::plays;
use std::test::Fail;

const SCRIPT: &str = "\
# It leaves whatever its boxes hold, under a number above its latest one; numbers may be left out.
D 2 5
2 asks 5 1 1 = Done
2 sends = Heard(Acked)
2 passes = Done
2 is_down 1 = No(NotHolder(5))
5 asks 2 1 1 = Done
5 ends = No(Unsent(1))
5 is_down 0 = No(NotDue { held: 0, needed: 1 })
5 stands = Stands(In)
5 is_down 2 = Done
5 stands = Stands(Away)
2 sees = Sees { holder: 2, next: 2 }
5 gives_up 1 1 = NobodyThere
5 joins = Done
2 passes = Done
5 is_down 1 = No(NotDue { held: 1, needed: 3 })
5 is_down 2 = No(NotDue { held: 2, needed: 3 })
5 is_down 3 = Done
# Both boxes are emptied: what had come is never taken, and what was to be sent never goes out.
D 2 5
2 asks 5 1 1 = Done
2 asks 5 2 1 = Done
2 sends = Heard(Acked)
2 sends = Heard(Acked)
2 passes = Done
5 takes = Request(2, 1, 1)
5 replies 2 1 1 = Done
5 is_down 1 = Done
5 joins = Done
2 passes = Done
5 takes = Nothing
5 sends = No(NothingToSend)
5 passes = Done
2 takes = Nothing
2 gives_up 1 1 = NoAnswer
2 gives_up 2 1 = NoAnswer
# The tries of what was to be sent are over too: the next frame has three of its own.
L 2 5
2 asks 5 1 1 = Done
2 sends = Heard(Silent)
2 sends = Heard(Silent)
2 is_down 1 = Done
2 gives_up 1 1 = NobodyThere
2 joins = Done
5 passes = Done
2 asks 5 1 2 = Done
2 sends = Heard(Silent)
2 sends = Heard(Silent)
2 gives_up 1 2 = No(NotDue { held: 0, needed: 2 })
2 sends = Heard(Silent)
2 gives_up 1 2 = NoAnswer
# Its Passes count on.
D 7
7 passes = Done
7 passes = Done
7 is_down 1 = Done
7 joins = Done
7 is_spent = No(NotDue { held: 2, needed: 3 })
7 passes = Done
7 is_spent = Done
# But those in a row that said done do not.
D 2 5
2 passes_done = Done
5 passes_done = Done
2 passes_done = Done
5 is_down 1 = Done
5 joins = Done
2 passes_done = Done
5 ends = No(NotDue { held: 0, needed: 1 })
5 passes_done = Done
2 passes_done = Done
5 ends = Done
# Its words are heard no more, nor does it pass those that it put; its other counts go on.
D 2 5
2 puts 7 8 = []
2 passes = Done
5 passes = Done
2 counts 2 0 1 = [2, 2, 1, 0, 0, 0, 0, 0, 0, 0, 0, 0, 0, 0, 0, 1, 0, 2, 0, 0]
2 puts 9 9 = []
2 is_down 1 = Done
5 hears 2 1 = 200a
5 hears 2 0 = [0]
5 counts 5 0 1 = [5, 1, 1, 0, 0, 0, 0, 0, 0, 0, 0, 0, 0, 0, 0, 2, 0, 0, 0, 0]
2 counts 2 0 1 = [2, 1, 1, 0, 0, 0, 0, 0, 0, 0, 0, 0, 0, 0, 0, 3, 0, 0, 0, 0]
2 joins = Done
2 counts 2 0 1 = [2, 1, 1, 0, 0, 0, 0, 0, 0, 0, 0, 0, 0, 0, 0, 4, 0, 0, 0, 0]
5 passes = Done
2 counts 2 0 1 = [2, 2, 1, 0, 0, 0, 0, 0, 0, 0, 0, 0, 0, 0, 0, 5, 0, 0, 0, 0]
2 passes = Done
5 hears 2 0 = [0]
# Words that it puts while it is away go with its next token.
D 2 5
2 is_down 1 = Done
2 puts 1 2 = []
2 joins = Done
5 hears 2 0 = [0]
5 passes = Done
2 passes = Done
5 hears 2 2 = [2, 1, 2]
# The words of others stay.
D 2 5
2 puts 7 8 = []
2 passes = Done
5 puts 3 4 = []
5 is_down 1 = Done
5 hears 2 2 = [2, 7, 8]
";

#[test]
fn what_power_takes(rt: HostRuntime) -> Result<(), Fail> {
    plays(&rt, rt.alloc(), SCRIPT)
}
