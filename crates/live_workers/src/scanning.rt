//! The scan worker of a controller.
ghost use Rattle.std.specs.Prelude.{◌≡◌, ◌≤◌, ◌+◌, true, length, IfOk, OnErr};
ghost use Rattle.turn_gate.specs.Known.{IsPassReady};
ghost use Rattle.controller_core.specs.Controller.{has_ended};
ghost use Rattle.joint_history.specs.Reading.{has_ended_at};
ghost use Rattle.gated_sides.specs.Cells.{maker_number};
ghost use Rattle.live_workers.specs.Scanning.{IsScanOver, ScanWentOn};

use crate::crews::Crew;
use crate::pauses::Stint;
use controller_core::{Controller, StepEnd};
use gated_sides::{Meet, RamCell};
use scan_order::{ScanStep, ends_scan};
use std::alloc::AllocError;
use std::sync::Wait;
use std::time::Clock;
use turn_gate::{Gate, Pass};

/// Makes the next event of the scan, for which it reserves memory where a scan begins.
fn step_reserved(controller: &mut Controller) -> Result<StepEnd, AllocError>
    ensures went { IfOk result (ScanWentOn controller.old controller.new) }
    ensures over { IfOk result (λ end. IsScanOver end → has_ended controller.new ≡ true) }
    ensures err { OnErr result (controller.new ≡ controller.old) }
{
    if !controller.is_reserved() {
        controller.reserve_scan()?;
    }
    Ok(controller.step())
}

/// Makes one event, or none, in one stay behind the gate.
fn step_in<M: Meet, R: Wait>(
    rt: &R,
    meet: &M,
    gate: &Gate<RamCell>,
    pass: &mut Pass<RamCell>,
    node: u8,
) -> Result<StepEnd, AllocError>
    requires ready { IsPassReady maker_number 1 gate.now.name pass.old }
    ensures ready { IsPassReady maker_number 1 gate.now.name pass.new }
    ensures one { length pass.new.mine ≤ length pass.old.mine + 1 }
    ensures over { IfOk result (λ end. IsScanOver end
        → has_ended_at gate.now.fixed pass.new.seen ≡ true) }
{
    let mut held = gate.enter(rt, pass);
    let answer = step_reserved(held.value().get_mut());
    if let Ok(StepEnd::Did(ScanStep::Solve(_))) = answer {
        meet.in_ram(node);
    }
    gate.leave(pass, held);
    answer
}

/// Makes events until all scans are gone or the controller has stopped; whether it came so far.
pub(crate) fn scan_all<M: Meet, R: Wait + Clock>(
    rt: &R,
    crew: &Crew,
    meet: &M,
    gate: &Gate<RamCell>,
    pass: &mut Pass<RamCell>,
    node: u8,
) -> bool
    requires ready { IsPassReady maker_number 1 gate.now.name pass.old }
    ensures ready { IsPassReady maker_number 1 gate.now.name pass.new }
    ensures ended { result ≡ true → has_ended_at gate.now.fixed pass.new.seen ≡ true }
{
    let mut watch = crew.begin();
    let mut stint = Stint::new();
    for _ in rt.forever() {
        if watch.is_raised() {
            return false;
        }
        match step_in(rt, meet, gate, pass, node) {
            Ok(StepEnd::Did(step)) => {
                if ends_scan(step) {
                    stint.scan_ended(rt);
                }
            }
            Ok(_) => return true,
            Err(_) => {
                watch.raise();
                return false;
            }
        }
    }
    unreachable!()
}
