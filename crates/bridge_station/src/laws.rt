//! Laws of a bridge whose ends stand on their rings. This project's own.
ghost use Rattle.bridge_station.specs.Laws.{EndsKnowWhetherTheyLeft, HoldingEndsAreThere};
ghost use Rattle.bridge_station.specs.Laws.{EndsStandBesideOthers, LeftBridgesAreComplete};
ghost use Rattle.bridge_station.specs.Laws.{BridgesStandBehindHolds, StandingBridgesAreTied};

/// An end still stands where other nodes had their turns on its ring.
pub fn ends_stand_beside_others()
    ensures { EndsStandBesideOthers }
{}

/// An end knows whether its node has left the ring.
pub fn ends_know_whether_they_left()
    ensures { EndsKnowWhetherTheyLeft }
{}

/// An end that holds the token has not left.
pub fn holding_ends_are_there()
    ensures { HoldingEndsAreThere }
{}

/// A bridge stands on both of its rings after a hold by one of its ends.
pub fn bridges_stand_behind_holds()
    ensures { BridgesStandBehindHolds }
{}

/// A bridge both of whose ends have left is complete.
pub fn left_bridges_are_complete()
    ensures { LeftBridgesAreComplete }
{}

/// A bridge whose ends stand on their rings is tied to both.
pub fn standing_bridges_are_tied()
    ensures { StandingBridgesAreTied }
{}
