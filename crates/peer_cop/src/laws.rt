//! Which plants can be wired.
ghost use Rattle.peer_cop.specs.Tested.{TestedPlantsCanBeWired};

/// Plants whose drops pass their tests can be wired.
pub fn tested_plants_can_be_wired()
    ensures { TestedPlantsCanBeWired }
{}
