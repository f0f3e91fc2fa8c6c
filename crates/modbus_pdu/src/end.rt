//! Why bytes were no request or no reply.
ghost use Rattle.std.specs.Prelude.{◌≡◌};
ghost use Rattle.modbus_pdu.specs.declared.end.DecodeEnd.TheVariants as decode_ends;
ghost use Rattle.modbus_pdu.specs.declared.end.BadReply.TheVariants as bad_replies;

use std::alloc::AllocError;
use thiserror::Error;

/// Why bytes were not decoded.
#[derive(Clone, Copy, Debug, PartialEq, Eq, Error)]
pub enum DecodeEnd {
    /// The code of the exception that is due: 1 where the function is not of the profile, 3 where
    /// its form, quantity or count is wrong.
    #[error("exception {0} is due")]
    Exception(u8),
    #[error("out of memory")]
    NoMemory,
}

impl From<AllocError> for DecodeEnd {
    ghost from_gives = { λ _ end. end ≡ decode_ends.NoMemory };

    fn from(_: AllocError) -> DecodeEnd {
        DecodeEnd::NoMemory
    }
}

/// Why bytes were not taken as a reply.
#[derive(Clone, Copy, Debug, PartialEq, Eq, Error)]
pub enum BadReply {
    /// They spell no reply to the request.
    #[error("the bytes are no reply to the request")]
    Form,
    #[error("out of memory")]
    NoMemory,
}

impl From<AllocError> for BadReply {
    ghost from_gives = { λ _ bad. bad ≡ bad_replies.NoMemory };

    fn from(_: AllocError) -> BadReply {
        BadReply::NoMemory
    }
}
