//! Running out of memory within a turn.
ghost use Rattle.std.specs.Prelude.{◌≡◌};

use ring_core::RingNo;
use std::alloc::AllocError;

/// Memory is short. A turn's calls on the ring are refused for nothing else. It is made here alone,
/// where memory ran out.
#[derive(Debug, Drop)]
pub struct Short {
    made: (),
}

impl Short {
    /// A call on the ring was refused because memory ran out.
    pub fn of(why: RingNo) -> Short
        requires { why ≡ RingNo.NoMemory }
    {
        let _ = why;
        Short { made: () }
    }
}

impl From<AllocError> for Short {
    ghost from_gives = { λ _ _. Unit {0} };

    fn from(_: AllocError) -> Short {
        Short { made: () }
    }
}
