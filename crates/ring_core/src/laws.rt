//! What holds of all legal histories.
ghost use Rattle.ring_core.specs.Stability.{HolderIsMember, HoldersKeep, MembershipStays};
ghost use Rattle.ring_core.specs.Stability.{OnlyBridgesStays, OnwardToBridges, OutsidersKeep};

/// Where a node stands toward the ring changes by its own Leave and Join alone, but for a node that
/// asks to come in.
pub fn membership_stays()
    ensures { MembershipStays }
{}

/// While a member holds the token, no entry of another changes the holder, the member's boxes and
/// paths, or for how long those whom it waits for have been done.
pub fn holders_keep()
    ensures { HoldersKeep }
{}

/// Where every other node on a ring, or that asks to be, is the end of a bridge, only a Join of
/// another node, one that is not such an end, changes that.
pub fn only_bridges_stays()
    ensures { OnlyBridgesStays }
{}

/// While a node is no member, no entry of another changes its boxes and paths.
pub fn outsiders_keep()
    ensures { OutsidersKeep }
{}

/// Who takes a frame that is to go on from its target is the end of a bridge.
pub fn onward_to_bridges()
    ensures { OnwardToBridges }
{}

/// Who holds the token is a member, one of the plan's; where there is no member the holder is 0.
pub fn holder_is_member()
    ensures { HolderIsMember }
{}
