//! How a set grows until it is closed.
ghost use Rattle.std.specs.Prelude.{◌≡◌, IfOk, OnOk};
ghost use Rattle.plant_types.specs.Checks.{sizes_of};
ghost use Rattle.cone_of.specs.Cone.{HasNetwork, HasSegments, IsCone};
ghost use Rattle.cone_of.specs.Growing.{forced_by, network_reads, GrowsBy, HasNetworks};
ghost use Rattle.cone_of.specs.Uses.{matters_to, network_matters};

use crate::cone::Cone;
use crate::uses::{directs, push_read, push_stored};
use plant_types::{ControllerPlan, Element, Network, OrderRow, Ref, Segment};
use std::alloc::{AllocError, Global};

/// Puts all that a network reads in place of what there was.
fn put_reads(refs: &mut Vec<Ref>, network: &Network) -> Result<(), AllocError>
    ensures { OnOk result (refs.new.items ≡ network_reads network.now) }
{
    refs.clear();
    for cell in network.cells.as_slice() {
        push_read(refs, cell.element)?;
    }
    Ok(())
}

/// Puts what is asked and the controls of rows in place of what there was.
fn put_forced(refs: &mut Vec<Ref>, of: Option<Ref>, orders: &[OrderRow]) -> Result<(), AllocError>
    ensures { OnOk result (refs.new.items ≡ forced_by of orders.now) }
{
    refs.clear();
    if let Some(at) = of {
        refs.push(at)?;
    }
    for row in orders {
        if let Some(at) = row.control {
            refs.push(at)?;
        }
    }
    Ok(())
}

impl Cone {
    /// Whether an element matters to it.
    fn matters_to(&self, refs: &mut Vec<Ref>, element: Element) -> Result<bool, AllocError>
        ensures { IfOk result (λ matters. matters ≡ matters_to self.now element) }
    {
        refs.clear();
        push_stored(refs, element)?;
        Ok(self.has_any(refs.as_slice()) || directs(element))
    }

    /// Whether a network matters to it. What stood in the list is lost.
    pub fn network_matters(
        &self,
        refs: &mut Vec<Ref>,
        network: &Network,
    ) -> Result<bool, AllocError>
        ensures { IfOk result (λ matters. matters ≡ network_matters self.now network.now) }
    {
        for cell in network.cells.as_slice() {
            if self.matters_to(refs, cell.element)? {
                return Ok(true);
            }
        }
        Ok(false)
    }

    /// Takes in all that a network reads, if it matters; whether that was more than it had.
    fn grow(&mut self, refs: &mut Vec<Ref>, network: &Network) -> Result<bool, AllocError>
        ensures { IfOk result (λ grew.
            GrowsBy (λ set. HasNetwork set network.now) grew self.old self.new) }
    {
        if !self.network_matters(refs, network)? {
            return Ok(false);
        }
        put_reads(refs, network)?;
        if self.has_all(refs.as_slice()) {
            return Ok(false);
        }
        self.add_all(refs.as_slice())?;
        Ok(true)
    }

    /// Takes in what each of these networks forces.
    fn grow_networks(
        &mut self,
        refs: &mut Vec<Ref>,
        networks: &[Network],
    ) -> Result<bool, AllocError>
        ensures { IfOk result (λ grew. GrowsBy (HasNetworks networks.now) grew self.old self.new) }
    {
        let mut grew = false;
        for network in networks {
            let more = self.grow(refs, network)?;
            grew |= more;
        }
        Ok(grew)
    }

    /// Takes in what each network of these segments forces.
    fn grow_segments(
        &mut self,
        refs: &mut Vec<Ref>,
        segments: &[Segment],
    ) -> Result<bool, AllocError>
        ensures { IfOk result (λ grew.
            GrowsBy (λ set. HasSegments set segments.now) grew self.old self.new) }
    {
        let mut grew = false;
        for segment in segments {
            let more = self.grow_networks(refs, segment.networks.as_slice())?;
            grew |= more;
        }
        Ok(grew)
    }
}

/// The cone of a reference of a controller, or of none: all that can matter to it. It takes a pass
/// over all networks for each that reads what one behind it stores in, and one more.
pub fn cone_of(alloc: Global, plan: &ControllerPlan, of: Option<Ref>) -> Result<Cone, AllocError>
    ensures { IfOk result (IsCone plan.now of) }
{
    let mut refs = Vec::new(alloc);
    let mut cone = Cone::new(alloc);
    put_forced(&mut refs, of, plan.orders.as_slice())?;
    cone.add_all(refs.as_slice())?;
    for _ in 0..u64::MAX {
        let grew = cone.grow_segments(&mut refs, plan.segments.as_slice())?;
        if !grew {
            return Ok(cone);
        }
    }
    Err(AllocError)
}
