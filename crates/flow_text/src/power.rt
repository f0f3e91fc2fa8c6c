//! What conducted in the scans of a plant.
ghost use Rattle.std.specs.Prelude.{◌≡◌, IfOk, OnOk, length};
ghost use Rattle.std.specs.List.{AllByRecursion, flat_map, zip};
ghost use Rattle.joint_history.specs.JointLaws.{IsLegalJoint, most_scans};
ghost use Rattle.joint_history.specs.Runnable.{CanRunPlant};
ghost use Rattle.panel_text.specs.Panel.{CanShow};
ghost use Rattle.flow_text.specs.Power.{flow, log_lines};
ghost use Rattle.flow_text.specs.Window.{AddsLines};

use crate::following::tell_log;
use crate::window::Window;
use joint_history::{ControllerLog, Joint};
use plant_types::Plant;
use std::alloc::{AllocError, Global};

/// Tells what each controller solved, by its log.
fn tell_logs(
    alloc: Global,
    plant: &Plant,
    logs: &[ControllerLog],
    window: &mut Window,
) -> Result<(), AllocError>
    requires count { length logs.now ≡ length plant.now.controllers }
    requires logs { AllByRecursion (CanShow plant.now) (zip plant.now.controllers logs.now) }
    ensures { OnOk result (AddsLines (λ scan.
        flat_map (log_lines plant.now scan) (zip plant.now.controllers logs.now))
        window.old window.new) }
{
    let plans = plant.controllers.as_slice();
    for (at, log) in logs.iter().enumerate() {
        tell_log(alloc, plant, &plans[at], log, window)?;
    }
    Ok(())
}

/// What conducted in the scans from one to another, by what the stations of a plant noted: scan by
/// scan, controller by controller in rising address, a line of each network that was solved, in the
/// order in which they ended. It has the scan, the node, the row of the order of solve, the segment
/// and the network, and for each of its eleven columns the rows that were live at its right border,
/// as two hexadecimal digits, bit 0 for row 1; or `--` where the network ended before. The scans are
/// made again, as the lists of the controllers say.
pub fn flow_text(
    alloc: Global,
    plant: &Plant,
    joint: &Joint,
    first: u32,
    last: u32,
) -> Result<Vec<u8>, AllocError>
    requires plant { CanRunPlant plant.now }
    requires joint { IsLegalJoint plant.now most_scans joint.now }
    ensures { IfOk result (λ text. text.items ≡ flow plant.now first last joint.now) }
{
    let mut window = Window::new(alloc, first, last)?;
    tell_logs(alloc, plant, joint.controllers.as_slice(), &mut window)?;
    window.joined(alloc)
}
