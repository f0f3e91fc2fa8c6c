//! The order of a call's entries.
ghost use Rattle.call_order.specs.Named.{CallsStandInOrder, RepliesComeFromTargets};

use ring_laws::{only_its_target, reply_to_its_caller};

/// On the one order of a ring and of the stations there a Request stands after the entry that
/// asked it, its Take after its Post, the answer after the Take, the Post of the Reply after the
/// answer, its Take after its Post, and the end of a call after what ended it.
pub fn calls_stand_in_order()
    ensures { CallsStandInOrder }
{
    only_its_target();
    reply_to_its_caller();
}

/// On each ring of a plant's joint history each Reply that is taken stands after its Post by the
/// station that took its Request, to which the caller had posted it, or by an end of a bridge.
pub fn replies_come_from_targets()
    ensures { RepliesComeFromTargets }
{
    only_its_target();
    reply_to_its_caller();
}
