//! Laws of stations in time. This project's own.
ghost use Rattle.entry_causes.specs.InTime.{InTimeByFronts, NextMayComeFirst};
ghost use Rattle.entry_causes.specs.InTime.{StationsHaveOneOrder};
ghost use Rattle.entry_causes.specs.Joint.{JointIsInOneOrder};

/// Stations that are each in time with their nodes have one order with the ring.
pub fn stations_have_one_order()
    ensures { StationsHaveOneOrder }
{}

/// Each ring of a plant's joint history has one order of all its entries and of those of the
/// stations there, where each station is in time.
pub fn joint_is_in_one_order()
    ensures { JointIsInOneOrder }
{}

/// A station is in time where a merge has nothing before its cause in any of its fronts.
pub fn in_time_by_fronts()
    ensures { InTimeByFronts }
{}

/// Whether lists are in time is found by taking, from either list, any next entry that has its
/// cause.
pub fn next_may_come_first()
    ensures { NextMayComeFirst }
{}
