//! The panel line of one scan.
ghost use Rattle.std.specs.Prelude.{◌≡◌, ◌<◌, ◌+◌, IfOk};
ghost use Rattle.panel_session.specs.Bench.{ends_off_by, is_shown_off, line_over, shown_of};

use panel_line::{push_gone, push_stopped, readings_of, values_from};
use plant_types::{ControllerPlan, Copied, List, PowerRow, Ref};
use std::alloc::{AllocError, Global};
use std::mem::replace;

/// What of a plan its panel lines are told by: the node, the panel's references, how many rows the
/// order of solve has, and the power rows.
#[derive(Drop)]
pub(crate) struct Shown {
    node: u8,
    panel: List<Ref>,
    orders: usize,
    power: List<PowerRow>,
}

/// Whether a scan ends without power by a power row, where the order of solve has so many rows.
fn ends_off_by(orders: usize, scan: u32, row: &PowerRow) -> bool
    ensures { result ≡ ends_off_by orders scan row.now }
{
    let fails = row.scan == scan && usize::from(row.row) <= orders;
    let is_dark = row.scan < scan && scan - row.scan <= row.dark;
    fails || is_dark
}

impl Shown {
    /// That of a plan.
    pub fn of(alloc: Global, plan: &ControllerPlan) -> Result<Shown, AllocError>
        ensures { IfOk result (λ shown. shown ≡ shown_of plan.now) }
    {
        let panel = plan.panel.copied(alloc)?;
        let power = plan.power.copied(alloc)?;
        Ok(Shown {
            node: plan.node,
            panel,
            orders: plan.orders.as_slice().len(),
            power,
        })
    }

    /// That of a plan that is given up for it. Takes no memory.
    pub fn out_of(alloc: Global, mut plan: ControllerPlan) -> Shown
        ensures { result ≡ shown_of plan }
    {
        let panel = replace(&mut plan.panel, List::new(alloc));
        let power = replace(&mut plan.power, List::new(alloc));
        Shown {
            node: plan.node,
            orders: plan.orders.as_slice().len(),
            panel,
            power,
        }
    }

    /// Whether a scan ends without power.
    fn is_off(&self, scan: u32) -> bool
        ensures { result ≡ is_shown_off self.now scan }
    {
        let orders = self.orders;
        self.power
            .as_slice()
            .iter()
            .any(|row| ends_off_by(orders, scan, row))
    }
}

/// The last line of a controller, by how many scans are gone, its stop code, and the values of its
/// panel as each scan was over.
pub(crate) fn last_line(
    alloc: Global,
    shown: &Shown,
    gone: u32,
    stop: u16,
    values: &[u16],
) -> Result<Vec<u8>, AllocError>
    requires { 0 < gone + stop }
    ensures { IfOk result (λ line. line.items ≡ line_over shown.now gone stop values.now) }
{
    let mut text = String::new(alloc);
    if stop != 0 {
        push_stopped(&mut text, gone as usize + 1, shown.node, stop)?;
        return Ok(text.into_bytes());
    }
    let readings = readings_of(alloc, shown.panel.as_slice())?;
    let is_off = shown.is_off(gone);
    let values = values_from(values, gone as usize - 1, readings.len());
    push_gone(
        &mut text,
        gone,
        shown.node,
        is_off,
        readings.as_slice(),
        values,
    )?;
    Ok(text.into_bytes())
}
