//! What a worker needs of a tape.
ghost use Rattle.std.specs.Prelude.{◌≡◌, ℕ, List, [], Bool, true, None};
ghost use Rattle.gated_tape.specs.Marks.{node_of, mark, added_on, mark_count, IsNext, IsLegalTape};
ghost use Rattle.gated_tape.specs.Marks.{TellsRoom};
ghost use Rattle.gated_tape.specs.Sides.{GoesOnBy, MayWriteFor};

use crate::refusals::PutNo;
use crate::tapes::Tape;

/// A tape by itself, or a pass of a gate round one. Others may write between two calls, so each
/// call says what is known afterwards.
pub trait Side {
    ghost use Rattle.gated_tape.specs.declared.tapes.Mark.{Mark};
    ghost use Rattle.gated_tape.specs.Sides.{Frame};

    /// What names the place of the tape: its gate, or nothing.
    type Place;

    /// What no call changes: the tape's limit, who may write here, and the place.
    ghost frame: { Self → Frame Self.Place };

    /// The marks as far as they are known here.
    ghost known: { Self → List Mark };

    /// Whether nobody else writes.
    ghost alone: { Bool };

    /// How many marks are the node's.
    fn count(&mut self, node: u32) -> u64
        requires serves { MayWriteFor (frame self.old).writer node }
        ensures answer { result ≡ mark_count node (known self.new) }
        ensures went { GoesOnBy alone node_of node (known self.old) [] (known self.new) }
        ensures legal { IsLegalTape (frame self.new).limit (known self.new) }
        ensures same { frame self.new ≡ frame self.old };

    /// Puts a mark at the end, whose word is the number of the node's marks so far.
    fn put(&mut self, node: u32, word: u64) -> Result<(), PutNo>
        requires serves { MayWriteFor (frame self.old).writer node }
        requires next { IsNext node word (known self.old) }
        ensures went { let added = added_on result (mark node word) in
            GoesOnBy alone node_of node (known self.old) added (known self.new) }
        ensures room { TellsRoom (frame self.new).limit result (known self.new) }
        ensures legal { IsLegalTape (frame self.new).limit (known self.new) }
        ensures same { frame self.new ≡ frame self.old };
}

impl Side for Tape {
    type Place = ();

    ghost frame = { λ t. record { limit = t.limit; writer = None; place = tt } };

    ghost known = { λ t. t.marks };

    ghost alone = { true };

    fn count(&mut self, node: u32) -> u64 {
        let _ = self.marks();
        Tape::count(self, node)
    }

    fn put(&mut self, node: u32, word: u64) -> Result<(), PutNo> {
        let answer = Tape::put(self, node, word);
        let _ = self.marks();
        answer
    }
}
