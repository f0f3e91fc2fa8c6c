//! A whole scan of a controller.
ghost use Rattle.std.specs.Prelude.{◌≡◌, false, List, OnErr, OnOk};
ghost use Rattle.controller_core.specs.declared.entry.Entry.{Entry as AnyEntry};
ghost use Rattle.controller_core.specs.declared.fixed.Fixed.{Fixed as AnyFixed};
ghost use Rattle.controller_core.specs.Controller.{at_start, grown, has_ended, AreOf, ControllerIs};
ghost use Rattle.whole_scan.specs.Scans.{with_scan, IsBetweenScans, LessensScan, MadeEvents};

use controller_core::{Controller, Maker};
use std::alloc::AllocError;

/// Makes one whole scan, or stops in it; nothing where the controller has ended.
pub fn scan(controller: &mut Controller) -> Result<(), AllocError>
    requires { IsBetweenScans controller.old }
    ensures made { OnOk result (MadeEvents (with_scan controller.old)
        controller.old controller.new) }
    ensures between { OnOk result (IsBetweenScans controller.new) }
    ensures less { OnOk result (LessensScan controller.old controller.new) }
    ensures rests { OnOk result (has_ended controller.old ≡ false →
        controller.new.reserved ≡ false) }
    ensures err { OnErr result (controller.new ≡ controller.old) }
{
    if controller.has_ended() {
        let _ = controller.history();
        return Ok(());
    }
    controller.reserve_scan()?;
    while controller.is_reserved() {
        let _ = controller.step();
    }
    Ok(())
}

/// A controller at its start stands between scans, and answers to other nodes keep it there.
pub fn scans_stay_whole()
    ensures starts { (fixed : AnyFixed) → IsBetweenScans (at_start fixed) }
    ensures stays { (v : ControllerIs) (added : List AnyEntry) → AreOf Maker.Communication added →
        IsBetweenScans v → IsBetweenScans (grown v added v.reserved) }
{}
