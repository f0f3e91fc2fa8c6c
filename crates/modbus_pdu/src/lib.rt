//! Modbus requests and replies, and their spelling as bytes.
#![tactic(auto)]

mod bits;
mod decoding;
mod draft;
mod encoding;
mod end;
mod laws;
mod limits;
mod numbers;
mod reply;
mod reply_decoding;
mod request;

pub use decoding::decode;
pub use encoding::{encode_reply, encode_request, exception_code};
pub use end::{BadReply, DecodeEnd};
pub use laws::{one_reply_spelling, one_request, request_is_spelled};
pub use limits::{
    COILS_WRITTEN, DISCRETES_READ, ILLEGAL_ADDRESS, ILLEGAL_FUNCTION, ILLEGAL_VALUE,
    REGISTERS_EXCHANGED, REGISTERS_READ, REGISTERS_WRITTEN,
};
pub use reply::Reply;
pub use reply_decoding::decode_reply;
pub use request::Request;
