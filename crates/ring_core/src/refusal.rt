//! Why a call on the ring is refused.
ghost use Rattle.std.specs.Prelude.{◌≡◌};
ghost use Rattle.ring_core.specs.Refusals.{or_no};
ghost use Rattle.ring_core.specs.declared.refusal.RingNo.TheVariants as refusals;

use std::alloc::AllocError;

/// Why a call on the ring was refused. This project's own.
#[derive(Clone, Copy, Debug, Drop, PartialEq, Eq)]
pub enum RingNo {
    /// The node has left, or only asks to come in.
    NotMember,
    /// This other node holds the token.
    NotHolder(u8),
    /// So many frames wait in the outbox.
    Unsent(u64),
    /// So many frames wait in the inbox; for a call that is given up: its reply.
    Untaken(u64),
    /// It is too early.
    NotDue { held: u64, needed: u64 },
    /// The outbox is empty.
    NothingToSend,
    /// The path awaits this number.
    PathTaken(u32),
    /// The path awaits this other number, or nothing: 0.
    NotAwaited(u32),
    /// The node did not leave as its power failed, or has asked already.
    NotAway,
    NoMemory,
}

// The first of two reasons.
pub(crate) fn or_no(first: Option<RingNo>, other: Option<RingNo>) -> Option<RingNo>
    ensures { result ≡ or_no first other }
{
    match first {
        None => other,
        Some(why) => Some(why),
    }
}

impl From<AllocError> for RingNo {
    ghost from_gives = { λ _ why. why ≡ refusals.NoMemory };

    fn from(_: AllocError) -> RingNo {
        RingNo::NoMemory
    }
}
