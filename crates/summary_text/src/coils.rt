//! The coils of a controller that are on.
ghost use Rattle.std.specs.Prelude.{◌≡◌};
ghost use Rattle.std.specs.List.{count_by};
ghost use Rattle.plant_types.specs.Reference.{coil_at};
ghost use Rattle.plant_types.specs.Store.{is_on};
ghost use Rattle.controller_core.specs.Controller.{store_of};
ghost use Rattle.summary_text.specs.Coils.{all_coils};

use controller_core::Controller;
use plant_types::{ControllerPlan, Ref, RefKind};

fn is_on(controller: &Controller, at: Ref) -> bool
    ensures { result ≡ is_on (store_of controller.now) at }
{
    controller.has(at) && controller.get(at) > 0
}

fn coil_at(number: u16) -> Ref
    ensures { result ≡ coil_at number }
{
    Ref {
        kind: RefKind::Coil,
        number,
    }
}

/// How many coils of a controller's plan are on. Takes no memory.
pub fn coils_on(controller: &Controller, plan: &ControllerPlan) -> usize
    ensures { result ≡ count_by (is_on (store_of controller.now)) (all_coils plan.now) }
{
    let mut on = 0;
    for at in 0..plan.coils {
        on += usize::from(is_on(controller, coil_at(at + 1)));
    }
    on
}
