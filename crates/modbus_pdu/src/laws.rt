//! What holds of all spellings.
ghost use Rattle.std.specs.Prelude.{◌≡◌, ◌↔◌, ℕ, List, Some};
ghost use Rattle.modbus_pdu.specs.Reading.{spelled_request};
ghost use Rattle.modbus_pdu.specs.Decoding.{HasOneSpelling};
ghost use Rattle.modbus_pdu.specs.Spelling.{Spells};
ghost use Rattle.modbus_pdu.specs.declared.request.Request.{Request as AnyRequest};
ghost use Rattle.modbus_pdu.specs.declared.reply.Reply.{Reply as AnyReply};

/// Bytes spell one request at most.
pub fn one_request()
    ensures { (bytes : List ℕ) (one other : AnyRequest) →
        Spells bytes one → Spells bytes other → one ≡ other }
{}

/// The request that the function of the bytes gives is the one that they spell.
pub fn request_is_spelled()
    ensures { (bytes : List ℕ) (request : AnyRequest) →
        (spelled_request bytes ≡ Some request) ↔ Spells bytes request }
{}

/// A reply has one spelling at most.
pub fn one_reply_spelling()
    ensures { (reply : AnyReply) → HasOneSpelling reply }
{}
