//! A worker with two sides.
ghost use Rattle.std.specs.Prelude.{◌≡◌, ◌+◌, ◌≤◌};
ghost use Rattle.gated_tape.specs.Marks.{mark_count};
ghost use Rattle.gated_tape.specs.Sides.{MayWriteFor};
ghost use Rattle.gated_tape.specs.Workers.{Worked, WriterEnded};

use crate::refusals::PutNo;
use crate::sides::Side;

/// Puts the node's words up to below `count`, each on the first side and then on the second. It
/// begins where the tapes stand, and stops at the first refusal.
pub fn write_both<A: Side, B: Side>(
    one: &mut A,
    two: &mut B,
    node: u32,
    count: u64,
) -> Result<(), PutNo>
    requires serves_one { MayWriteFor (A.frame one.old).writer node }
    requires serves_two { MayWriteFor (B.frame two.old).writer node }
    requires even { mark_count node (A.known one.old) ≡ mark_count node (B.known two.old) }
    requires few { mark_count node (A.known one.old) ≤ count }
    ensures ended { WriterEnded node count result (A.frame one.new) (A.known one.new)
        (B.frame two.new) (B.known two.new) }
    ensures one { Worked A.alone node (A.frame one.old) (A.known one.old)
        (A.frame one.new) (A.known one.new) }
    ensures two { Worked B.alone node (B.frame two.old) (B.known two.old)
        (B.frame two.new) (B.known two.new) }
{
    let begun = one.count(node);
    for word in begun..count {
        put_both(one, two, node, word)?;
    }
    Ok(())
}

fn put_both<A: Side, B: Side>(one: &mut A, two: &mut B, node: u32, word: u64) -> Result<(), PutNo>
    requires serves_one { MayWriteFor (A.frame one.old).writer node }
    requires serves_two { MayWriteFor (B.frame two.old).writer node }
    requires next_one { mark_count node (A.known one.old) ≡ word }
    requires next_two { mark_count node (B.known two.old) ≡ word }
    ensures ended { WriterEnded node (word + 1) result (A.frame one.new) (A.known one.new)
        (B.frame two.new) (B.known two.new) }
    ensures one { Worked A.alone node (A.frame one.old) (A.known one.old)
        (A.frame one.new) (A.known one.new) }
    ensures two { Worked B.alone node (B.frame two.old) (B.known two.old)
        (B.frame two.new) (B.known two.new) }
{
    one.put(node, word)?;
    two.put(node, word)?;
    Ok(())
}
