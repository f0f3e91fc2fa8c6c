//! What the tests of a plan promise of its store.
ghost use Rattle.plant_types.specs.Checks.{CheckedPlansFindAll, KeptStoresFindAll};
ghost use Rattle.plant_types.specs.Passing.{ChecksAreExact};

/// A plan that passes its tests finds each operand and each panel reference in the store that its
/// sizes make.
pub fn checked_plans_find_all()
    ensures { CheckedPlansFindAll }
{}

/// What elements and panels find in a store, they find in each store that keeps its references.
pub fn kept_stores_find_all()
    ensures { KeptStoresFindAll }
{}

/// `ControllerPlan::check` finds no fault exactly where each of its tests holds. A plan that it
/// lets through passes, each of its LABs has its own number, it has at most 64 messages, and each
/// of its order rows names a segment, drops and a control that there are.
pub fn checks_are_exact()
    ensures { ChecksAreExact }
{}
