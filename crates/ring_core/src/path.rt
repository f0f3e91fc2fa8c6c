//! The paths of a node.
ghost use Rattle.std.specs.Prelude.{◌≡◌};
ghost use Rattle.ring_core.specs.Machine.{no_path, aged, CanAge, awaited_number};
ghost use Rattle.ring_core.specs.Refusals.{taken_no, awaited_no, other_no, answer_after, due_no};

use crate::refusal::RingNo;

// What a path awaits.
#[derive(Clone, Copy, Drop)]
pub(crate) enum Await {
    Nothing,
    // The reply to a Request of this number to a node, from which it goes on or not, for so many of
    // the own Passes.
    Out {
        seq: u32,
        to: u8,
        onward: bool,
        passes: u64,
    },
    // The reply of this number is in the inbox.
    Arrived(u32),
    // No reply comes; why.
    Failed {
        seq: u32,
        word: u16,
    },
}

// A path: what it awaits, and the greatest number that was posted on it.
#[derive(Clone, Copy, Drop)]
pub(crate) struct Path {
    pub awaits: Await,
    pub posted: u32,
}

// A path that was never used.
pub(crate) fn no_path() -> Path
    ensures { result ≡ no_path }
{
    Path {
        awaits: Await::Nothing,
        posted: 0,
    }
}

impl Await {
    /// The number that is awaited, or 0.
    pub fn seq(self) -> u32
        ensures { result ≡ awaited_number self }
    {
        match self {
            Await::Nothing => 0,
            Await::Out { seq, .. } => seq,
            Await::Arrived(seq) => seq,
            Await::Failed { seq, .. } => seq,
        }
    }

    /// Why a Request cannot be posted on the path, if so.
    pub fn taken_no(self) -> Option<RingNo>
        ensures { result ≡ taken_no self }
    {
        match self {
            Await::Nothing => None,
            Await::Out { seq, .. } => Some(RingNo::PathTaken(seq)),
            Await::Arrived(seq) => Some(RingNo::PathTaken(seq)),
            Await::Failed { seq, .. } => Some(RingNo::PathTaken(seq)),
        }
    }
}

// How much of its cause to leave a node has, and how much it needs.
#[derive(Clone, Copy, Drop)]
pub(crate) struct LeaveDue {
    pub held: u64,
    pub needed: u64,
}

// A path that awaits another number.
fn other_no(out: u32, seq: u32) -> Option<RingNo>
    ensures { result ≡ other_no out seq }
{
    if out == seq {
        None
    } else {
        Some(RingNo::NotAwaited(out))
    }
}

// It is too early.
pub(crate) fn due_no(held: u64, needed: u64) -> Option<RingNo>
    ensures { result ≡ due_no held needed }
{
    if held < needed {
        Some(RingNo::NotDue { held, needed })
    } else {
        None
    }
}

impl Await {
    /// Why it is not this number that is awaited.
    pub fn awaited_no(self, seq: u32) -> Option<RingNo>
        ensures { result ≡ awaited_no self seq }
    {
        match self {
            Await::Nothing => Some(RingNo::NotAwaited(0)),
            Await::Out { seq: out, .. } => other_no(out, seq),
            Await::Arrived(out) => other_no(out, seq),
            Await::Failed { seq: out, .. } => other_no(out, seq),
        }
    }

    /// Why a member's call is not given up yet.
    pub fn answer_no(self, answer: u32) -> Option<RingNo>
        ensures { result ≡ answer_after answer self }
    {
        match self {
            Await::Out { passes, .. } => due_no(passes, answer as u64),
            Await::Arrived(_) => Some(RingNo::Untaken(1)),
            _ => None,
        }
    }
}

impl Path {
    /// The path after one more own Pass.
    pub fn aged(self) -> Path
        requires { CanAge self }
        ensures { result ≡ aged self }
    {
        let awaits = match self.awaits {
            Await::Out {
                seq,
                to,
                onward,
                passes,
            } => Await::Out {
                seq,
                to,
                onward,
                passes: passes + 1,
            },
            other => other,
        };
        Path {
            awaits,
            posted: self.posted,
        }
    }
}
