//! What a bridge sends on and gives back comes from what stands before it. This project's own.
ghost use Rattle.bridge_causes.specs.Causes.{BacksFollowCauses, ForwardsFollowAccepts};

/// A bridge sends a Request on behind the entry by which it accepted it across.
pub fn forwards_follow_accepts()
    ensures { ForwardsFollowAccepts }
{}

/// A bridge gives a reply back behind what it came from: the reply of the call under which it sent
/// the Request on, or an exception that it made itself, for one of three causes.
pub fn backs_follow_causes()
    ensures { BacksFollowCauses }
{}
