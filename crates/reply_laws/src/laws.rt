//! Laws of the results of replies. This project's own.
ghost use Rattle.reply_laws.specs.Results.{AnswersGiveTheirResult, OthersGiveNone};
ghost use Rattle.reply_laws.specs.Results.{UnaskedGiveCodes};

/// Bytes that spell a reply to the request that was asked come to what that reply tells.
pub fn answers_give_their_result()
    ensures { AnswersGiveTheirResult }
{}

/// Bytes that spell no reply to it come to 3000.
pub fn others_give_none()
    ensures { OthersGiveNone }
{}

/// A reply to bytes that spell no request comes to its code where it is an exception reply of their
/// function, and else to 3000.
pub fn unasked_give_codes()
    ensures { UnaskedGiveCodes }
{}
