//! Statistics and global words.
use crate::script::plays;
use std::test::Fail;

const SCRIPT: &str = "\
# One call there and back: what each of the two has counted.
D 2 5
2 asks 5 1 1 = Done
2 sends = Heard(Acked)
2 passes = Done
5 takes = Request(2, 1, 1)
5 replies 2 1 1 = Done
5 sends = Heard(Acked)
5 counts 5 0 1 = [5, 2, 0, 0, 1, 1, 0, 0, 1, 0, 0, 0, 1, 0, 0, 0, 0, 0, 0, 0]
5 passes = Done
2 takes = Reply(2, 1, 1)
2 counts 2 0 1 = [2, 2, 1, 1, 0, 1, 0, 0, 0, 0, 1, 0, 0, 1, 0, 0, 0, 0, 0, 0]
# A repeat, a Reply that is dropped, Silents, a give-up, and calls for another node.
ADDLLL 2 5
2 replies 5 1 1 = Done
2 asks 5 1 1 = Done
2 asks 5 2 1 = Done
2 sends = Heard(Silent)
2 sends = Heard(Acked)
2 sends = Heard(Acked)
2 sends = Heard(Silent)
2 sends = Heard(Silent)
2 sends = Heard(Silent)
2 gives_up 2 1 = NoAnswer
2 counts 2 0 1 = [2, 2, 0, 2, 1, 2, 4, 0, 0, 0, 0, 0, 0, 0, 1, 0, 0, 0, 0, 0]
2 passes = Done
5 takes = Request(2, 1, 1)
5 takes = Nothing
5 counts 2 1 2 = [5, 2, 0, 0, 0, 0, 0, 0, 1, 0, 0, 2, 1, 0, 0, 0, 0, 0, 0, 0]
5 counts 5 0 1 = [5, 2, 0, 0, 0, 0, 0, 0, 1, 0, 0, 2, 1, 0, 0, 0, 1, 0, 0, 0]
# A clear, the node's own and one for another, counts nowhere; what comes after it counts.
D 7
7 passes = Done
7 counts 7 0 1 = [7, 1, 1, 0, 0, 0, 0, 0, 0, 0, 0, 0, 0, 0, 0, 0, 0, 0, 0, 0]
7 counts 7 0 1 = [7, 1, 1, 0, 0, 0, 0, 0, 0, 0, 0, 0, 0, 0, 0, 1, 0, 0, 0, 0]
7 clears 7 0 2 = []
7 counts 7 0 1 = [7, 1, 0, 0, 0, 0, 0, 0, 0, 0, 0, 0, 0, 0, 0, 0, 0, 0, 0, 0]
7 clears 2 1 1 = []
7 passes = Done
7 counts 7 0 1 = [7, 1, 1, 0, 0, 0, 0, 0, 0, 0, 0, 0, 0, 0, 0, 0, 0, 0, 0, 0]
7 counts 7 0 1 = [7, 1, 1, 0, 0, 0, 0, 0, 0, 0, 0, 0, 0, 0, 0, 1, 0, 0, 0, 0]
# Words are heard from the Pass on: how many, and the first of them; too many are refused.
D 2 5
2 puts 7 8 = []
2 passes = Done
5 hears 2 2 = [2, 7, 8]
5 hears 2 3 = 200a
5 counts 5 0 3 = [5, 2, 0, 0, 0, 0, 0, 0, 0, 0, 0, 0, 0, 0, 0, 2, 0, 0, 0, 0]
# The words of a node that has left are those of its last Pass, and no later ones.
D 2 5
2 puts 7 8 = []
2 passes_done = Done
5 passes_done = Done
2 puts 9 9 = []
2 ends = Done
2 puts 1 1 = []
5 hears 2 2 = [2, 7, 8]
5 hears 2 0 = [2]
2 counts 2 0 1 = [2, 1, 1, 0, 0, 0, 0, 0, 0, 0, 0, 0, 0, 0, 0, 3, 0, 2, 0, 0]
5 hears 9 0 = [0]
";

#[test]
fn statistics_and_global_words(rt: HostRuntime) -> Result<(), Fail> {
    plays(&rt, rt.alloc(), SCRIPT)
}
