//! The places of drops, of their modules and of the rows of their scripts.
ghost use Rattle.std.specs.Prelude.{◌≡◌};
ghost use Rattle.traffic_cop.specs.DropTests.{drop_place, module_place, script_place};

use plant_types::{Part, Place};

/// A drop of a controller.
pub fn drop_place(controller: u32, drop: u32) -> Place
    ensures { result ≡ drop_place controller drop }
{
    Place {
        part: Part::Drop,
        at: [controller, drop, 0, 0],
    }
}

/// A module of a drop.
pub fn module_place(controller: u32, drop: u32, io_module: u32) -> Place
    ensures { result ≡ module_place controller drop io_module }
{
    Place {
        part: Part::Module,
        at: [controller, drop, io_module, 0],
    }
}

/// A row of the script of a drop.
pub fn script_place(controller: u32, drop: u32, row: u32) -> Place
    ensures { result ≡ script_place controller drop row }
{
    Place {
        part: Part::Script,
        at: [controller, drop, row, 0],
    }
}
