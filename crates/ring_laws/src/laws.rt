//! Laws of all legal histories. This project's own.
ghost use Rattle.ring_laws.specs.Once.{PostedOnce, TakenOnce, OnlyItsTarget, ReplyByTaker};
ghost use Rattle.ring_laws.specs.Once.{ReplyToItsCaller, GivenUpWord};

/// A call is asked for at most once.
pub fn posted_once()
    ensures { PostedOnce }
{}

/// A Request is taken at most once, however often it was sent and whatever became of the
/// acknowledgements.
pub fn taken_once()
    ensures { TakenOnce }
{}

/// A Request is accepted by its target alone, and its caller posted it.
pub fn only_its_target()
    ensures { OnlyItsTarget }
{}

/// A Reply that is accepted was posted by the node that took its Request, on a ring where no node
/// answers what it did not take.
pub fn reply_by_taker()
    ensures { ReplyByTaker }
{}

/// A Reply is accepted by its caller alone, which had posted the Request.
pub fn reply_to_its_caller()
    ensures { ReplyToItsCaller }
{}

/// A call that is given up ends with 6101, 6103 or 6105.
pub fn given_up_word()
    ensures { GivenUpWord }
{}
