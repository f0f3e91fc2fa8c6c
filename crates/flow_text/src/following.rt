//! What a controller solved, by its log: its events are made again, one after another.
ghost use Rattle.std.specs.Prelude.{◌≡◌, ◌<◌, ◌≤◌, ◌+◌, [], length, OnOk};
ghost use Rattle.controller_core.specs.Controller.{IsLegal, state_of};
ghost use Rattle.controller_core.specs.Following.{MayFollow};
ghost use Rattle.panel_text.specs.Panel.{CanShow, HasMade};
ghost use Rattle.flow_text.specs.Power.{log_lines};
ghost use Rattle.flow_text.specs.Solved.{networks_solved, solved_next};
ghost use Rattle.flow_text.specs.Window.{AddsFlow, AddsLines, texts_of};

use crate::window::Window;
use controller_core::{Controller, Entry, fronts_are_legal};
use joint_history::ControllerLog;
use ladder_solver::NetworkFlow;
use plant_types::{ControllerPlan, MOST_SCANS, Plant};
use std::alloc::{AllocError, Global};

/// Makes a Solve again, and tells what conducted.
fn solve_again(
    controller: &mut Controller,
    node: u8,
    row: u16,
    scan: u64,
    notes: &mut Vec<NetworkFlow>,
    window: &mut Window,
) -> Result<(), AllocError>
    requires next { MayFollow controller.old (Entry.Solve row) }
    requires scan { scan ≡ (state_of controller.old).gone + 1 }
    requires first { window.old.first ≤ scan }
    requires last { scan < window.old.first + length (texts_of window.old) }
    ensures made { OnOk result (HasMade (Entry.Solve row) controller.old controller.new) }
    ensures told { OnOk result (AddsFlow node (solved_next controller.old (Entry.Solve row))
        window.old window.new) }
{
    notes.clear();
    controller.follow_noting(&Entry::Solve(row), notes)?;
    window.push(node, scan, row, notes.as_slice())
}

/// Makes an event again, and tells what conducted, if it solved in a scan of the window.
fn make_again(
    controller: &mut Controller,
    node: u8,
    entry: &Entry,
    notes: &mut Vec<NetworkFlow>,
    window: &mut Window,
) -> Result<(), AllocError>
    requires { MayFollow controller.old entry.now }
    ensures made { OnOk result (HasMade entry.now controller.old controller.new) }
    ensures told { OnOk result (AddsFlow node (solved_next controller.old entry.now)
        window.old window.new) }
{
    let scan = u64::from(controller.scans_gone()) + 1;
    match entry {
        Entry::Solve(row) if window.has(scan) => {
            solve_again(controller, node, *row, scan, notes, window)
        }
        _ => {
            controller.follow(entry)?;
            Ok(())
        }
    }
}

/// Makes all events of a log again.
fn follow_all(
    controller: &mut Controller,
    node: u8,
    entries: &[Entry],
    notes: &mut Vec<NetworkFlow>,
    window: &mut Window,
) -> Result<(), AllocError>
    requires fresh { controller.old.history ≡ [] }
    requires legal { IsLegal controller.old.fixed entries.now }
    ensures { OnOk result (AddsFlow node (networks_solved controller.old.fixed entries.now)
        window.old window.new) }
{
    fronts_are_legal();
    for entry in entries {
        make_again(controller, node, entry, notes, window)?;
    }
    Ok(())
}

/// Tells what a controller solved, by its log.
pub(crate) fn tell_log(
    alloc: Global,
    plant: &Plant,
    plan: &ControllerPlan,
    log: &ControllerLog,
    window: &mut Window,
) -> Result<(), AllocError>
    requires { CanShow plant.now (plan.now, log.now) }
    ensures { OnOk result (AddsLines (λ scan. log_lines plant.now scan (plan.now, log.now))
        window.old window.new) }
{
    let (scan_time, watchdog) = (plant.scan_time, plant.watchdog);
    let mut controller = Controller::new(alloc, plan, scan_time, watchdog, MOST_SCANS)?;
    let mut notes = Vec::new(alloc);
    follow_all(
        &mut controller,
        plan.node,
        log.entries.as_slice(),
        &mut notes,
        window,
    )
}
