//! What a controller is made of at its start.
ghost use Rattle.std.specs.Prelude.{IfOk};
ghost use Rattle.traffic_cop.specs.Rows.{IsRunnablePlan};
ghost use Rattle.controller_core.specs.Parts.{ArePartsOf, AreStoresOf, IsSolverOf};

use ladder_solver::{Ladder, grids_ask_no_more, grids_of};
use mstr_block::MstrBank;
use plant_types::{ControllerPlan, DROP_LIMIT, checked_plans_find_all, is_routed};
use state_ram::PackedRam;
use std::alloc::{AllocError, Global};
use traffic_cop::Cop;

/// The ladder of a plan, and the table of its message blocks.
#[derive(Drop)]
pub(crate) struct Solver {
    pub(crate) ladder: Ladder,
    pub(crate) bank: MstrBank,
}

/// The store of a plan, and one of its discretes alone.
#[derive(Drop)]
pub(crate) struct Stores {
    pub(crate) ram: PackedRam,
    pub(crate) past: PackedRam,
}

/// All that a plan's scans work on.
#[derive(Drop)]
pub(crate) struct Parts {
    pub(crate) solver: Solver,
    pub(crate) stores: Stores,
    pub(crate) cop: Cop,
    /// How many input exchanges each drop had, by its number.
    pub(crate) exchanges: Vec<u32>,
}

fn solver_of(alloc: Global, plan: &ControllerPlan) -> Result<Solver, AllocError>
    requires { IsRunnablePlan plan.now }
    ensures { IfOk result (IsSolverOf plan.now) }
{
    checked_plans_find_all();
    grids_ask_no_more();
    let grids = grids_of(alloc, plan.segments.as_slice())?;
    let ladder = Ladder::new(alloc, grids)?;
    let count = ladder.blocks();
    let bank = MstrBank::new(alloc, plan.node, count, is_routed(plan.network))?;
    Ok(Solver { ladder, bank })
}

fn stores_of(alloc: Global, plan: &ControllerPlan) -> Result<Stores, AllocError>
    requires { IsRunnablePlan plan.now }
    ensures { IfOk result (AreStoresOf plan.now) }
{
    let (coils, inputs) = (plan.coils, plan.inputs);
    let ram = PackedRam::new(alloc, coils, inputs, plan.input_registers, plan.registers)?;
    let past = PackedRam::new(alloc, coils, inputs, 0, 0)?;
    Ok(Stores { ram, past })
}

/// The parts of a plan at its start: all references and counts are 0, and all edge bits off.
pub(crate) fn parts_of(alloc: Global, plan: &ControllerPlan) -> Result<Parts, AllocError>
    requires { IsRunnablePlan plan.now }
    ensures { IfOk result (ArePartsOf plan.now) }
{
    let solver = solver_of(alloc, plan)?;
    let stores = stores_of(alloc, plan)?;
    let cop = Cop::new(alloc, plan.drops.as_slice())?;
    let exchanges = vec![in alloc; 0; DROP_LIMIT]?;
    Ok(Parts {
        solver,
        stores,
        cop,
        exchanges,
    })
}
