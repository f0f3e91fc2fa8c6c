//! The first test that a controller does not pass, and its place.
ghost use Rattle.std.specs.Prelude.{◌≡◌, ◌≤◌, ◌<◌, ◌==◌, length};
ghost use Rattle.std.specs.List.{list_any};
ghost use Rattle.plant_types.specs.Checks.{is_size, is_discrete_size};
ghost use Rattle.plant_types.specs.FirstFault.{first_failed, tests_of_each, is_label};
ghost use Rattle.plant_types.specs.PlanTests.{piece_place, site_cell_tests, placed_cell_tests};
ghost use Rattle.plant_types.specs.PlanTests.{placed_short_tests, site_tests, site_tests_in};
ghost use Rattle.plant_types.specs.PlanTests.{segment_tests, has_label, is_subroutines, is_segment};
ghost use Rattle.plant_types.specs.PlanTests.{has_drop, has_control, is_order, order_tests};
ghost use Rattle.plant_types.specs.PlanTests.{has_power_numbers, is_behind_dark, power_tests};
ghost use Rattle.plant_types.specs.PlanTests.{panel_tests, are_sizes, has_few, table_tests};
ghost use Rattle.plant_types.specs.PlanTests.{controller_tests};

use crate::drops::IoDrop;
use crate::fault::{Place, PlantFault};
use crate::net::NODE_LIMIT;
use crate::network::{Cell, Network, Segment, Short};
use crate::plan::{ControllerPlan, MOST_SCANS, OrderRow, PowerRow};
use crate::reference::Ref;
use crate::sizes::Sizes;
use crate::standing::{Earlier, is_label};
use std::marker::Model;

/// The most references of a kind.
pub const REFERENCE_LIMIT: u16 = 9984;

/// The most segments of a controller.
pub const SEGMENT_LIMIT: usize = 32;

/// The most networks of a segment.
pub const NETWORK_LIMIT: usize = 1000;

/// The most references of a panel.
pub const PANEL_LIMIT: usize = 64;

/// The most order rows of a controller.
pub const ORDER_LIMIT: usize = 32;

/// The most power rows of a controller.
pub const POWER_LIMIT: usize = 32;

/// The most scans after a power failure in which a controller is dark.
pub const DARK_LIMIT: u32 = 2000;

/// The most drops of a controller.
pub const DROP_LIMIT: usize = 32;

/// A network that passes has fewer cells than this, and fewer shorts.
const PIECE_LIMIT: usize = 97;

/// Where a network stands in its controller.
#[derive(Drop)]
struct Site<'a> {
    sizes: Sizes,
    is_last: bool,
    segments: &'a [Segment],
    networks: &'a [Network],
}

impl<'a> Model for Site<'a> {
    ghost use Rattle.plant_types.specs.PlanTests.{Site, AreFew};

    ghost Value = { Site };

    ghost view = { λ s. record {
      sizes = s.sizes;
      is_last = s.is_last;
      segments = s.segments.now;
      networks = s.networks.now;
    } };

    ghost invariant = { λ s. AreFew s.segments.now s.networks.now };
}

impl<'a> Site<'a> {
    /// The place of a piece.
    fn piece(&self, number: u32) -> Place
        ensures { result ≡ piece_place self.now number }
    {
        let segment = self.segments.len() as u32 + 1;
        let network = self.networks.len() as u32 + 1;
        Place::cell(1, segment, network, number)
    }

    fn test_cell(&self, earlier: &[Cell], cell: Cell) -> Result<(), PlantFault>
        ensures { result ≡ first_failed (site_cell_tests self.now earlier.now cell) }
    {
        cell.check(self.sizes, earlier)?;
        let before = Earlier {
            segments: self.segments,
            networks: self.networks,
            cells: earlier,
        };
        before.standing(self.is_last, cell.element).check()
    }

    fn check_cell(&self, earlier: &[Cell], cell: Cell) -> Result<(), (PlantFault, Place)>
        requires { length earlier.now ≤ PIECE_LIMIT }
        ensures { result ≡ first_failed (placed_cell_tests self.now earlier.now cell) }
    {
        let place = self.piece(earlier.len() as u32 + 1);
        place.locate(self.test_cell(earlier, cell))
    }

    fn check_cells(&self, cells: &[Cell]) -> Result<(), (PlantFault, Place)>
        ensures { result ≡ first_failed (tests_of_each (placed_cell_tests self.now) cells.now) }
    {
        for (i, cell) in cells.iter().enumerate() {
            self.check_cell(&cells[..i], *cell)?;
        }
        Ok(())
    }

    fn check_short(
        &self,
        cells: usize,
        earlier: &[Short],
        short: Short,
    ) -> Result<(), (PlantFault, Place)>
        requires cells { cells ≤ PIECE_LIMIT }
        requires shorts { length earlier.now ≤ PIECE_LIMIT }
        ensures { result ≡ first_failed (placed_short_tests self.now cells earlier.now short) }
    {
        let place = self.piece((cells + earlier.len()) as u32 + 1);
        place.locate(short.check(earlier))
    }

    fn check_shorts(&self, cells: usize, shorts: &[Short]) -> Result<(), (PlantFault, Place)>
        requires { cells ≤ PIECE_LIMIT }
        ensures { result ≡ first_failed
            (tests_of_each (placed_short_tests self.now cells) shorts.now) }
    {
        for (i, short) in shorts.iter().enumerate() {
            self.check_short(cells, &shorts[..i], *short)?;
        }
        Ok(())
    }

    fn check(&self, network: &Network) -> Result<(), (PlantFault, Place)>
        ensures { result ≡ first_failed (site_tests self.now network.now) }
    {
        let cells = network.cells.as_slice();
        self.check_cells(cells)?;
        self.check_shorts(cells.len(), network.shorts.as_slice())
    }
}

fn check_networks(
    plan: &ControllerPlan,
    earlier: &[Segment],
    networks: &[Network],
) -> Result<(), (PlantFault, Place)>
    requires segments { length earlier.now < SEGMENT_LIMIT }
    requires networks { length networks.now ≤ NETWORK_LIMIT }
    ensures { result ≡ first_failed
        (tests_of_each (site_tests_in plan.now earlier.now) networks.now) }
{
    for (i, network) in networks.iter().enumerate() {
        let site = Site {
            sizes: plan.sizes(),
            is_last: earlier.len() + 1 == plan.segments.as_slice().len(),
            segments: earlier,
            networks: &networks[..i],
        };
        site.check(network)?;
    }
    Ok(())
}

fn check_segment(
    plan: &ControllerPlan,
    earlier: &[Segment],
    segment: &Segment,
) -> Result<(), (PlantFault, Place)>
    requires { length earlier.now < SEGMENT_LIMIT }
    ensures { result ≡ first_failed (segment_tests plan.now earlier.now segment.now) }
{
    let networks = segment.networks.as_slice();
    if networks.len() > NETWORK_LIMIT {
        let place = Place::segment(1, earlier.len() as u32 + 1);
        return Err((PlantFault::TooLarge, place));
    }
    check_networks(plan, earlier, networks)
}

fn check_segments(plan: &ControllerPlan, segments: &[Segment]) -> Result<(), (PlantFault, Place)>
    requires { length segments.now ≤ SEGMENT_LIMIT }
    ensures { result ≡ first_failed (tests_of_each (segment_tests plan.now) segments.now) }
{
    for (i, segment) in segments.iter().enumerate() {
        check_segment(plan, &segments[..i], segment)?;
    }
    Ok(())
}

fn has_label_in_cells(cells: &[Cell]) -> bool
    ensures { result ≡ list_any (λ cell. is_label cell.element) cells.now }
{
    cells.iter().any(|cell| is_label(cell.element))
}

fn has_label(segment: &Segment) -> bool
    ensures { result ≡ has_label segment.now }
{
    segment
        .networks
        .as_slice()
        .iter()
        .any(|network| has_label_in_cells(network.cells.as_slice()))
}

fn have_label(segments: &[Segment]) -> bool
    ensures { result ≡ list_any has_label segments.now }
{
    segments.iter().any(has_label)
}

/// Whether the segment of a number is the one of the subroutines: the last, where it has a LAB.
pub fn is_subroutines(segments: &[Segment], number: u16) -> bool
    ensures { result ≡ is_subroutines segments.now number }
{
    let last = segments.len().saturating_sub(1);
    usize::from(number) == segments.len() && have_label(&segments[last..])
}

/// Whether a number counts one of the segments, from 1.
pub fn is_segment(segments: &[Segment], number: u16) -> bool
    ensures { result ≡ is_segment segments.now number }
{
    1 <= number && usize::from(number) <= segments.len()
}

fn have_number(drops: &[IoDrop], number: u8) -> bool
    ensures { result ≡ list_any (λ one. one.number == number) drops.now }
{
    drops.iter().any(|one| one.number == number)
}

/// Whether a row names no drop, or one of these.
pub fn has_drop(drops: &[IoDrop], number: Option<u8>) -> bool
    ensures { result ≡ has_drop drops.now number }
{
    match number {
        Some(number) => have_number(drops, number),
        None => true,
    }
}

/// Whether a row has no control, or a discrete of the map.
pub fn has_control(sizes: Sizes, control: Option<Ref>) -> bool
    ensures { result ≡ has_control sizes control }
{
    match control {
        Some(at) => at.kind.is_discrete() && sizes.has_reference(at),
        None => true,
    }
}

fn is_order(plan: &ControllerPlan, row: OrderRow) -> bool
    ensures { result ≡ is_order plan.now row }
{
    let segments = plan.segments.as_slice();
    let drops = plan.drops.as_slice();
    is_segment(segments, row.segment)
        && !is_subroutines(segments, row.segment)
        && has_drop(drops, row.input)
        && has_drop(drops, row.output)
}

fn check_order(
    plan: &ControllerPlan,
    earlier: &[OrderRow],
    row: OrderRow,
) -> Result<(), (PlantFault, Place)>
    requires { length earlier.now < ORDER_LIMIT }
    ensures { result ≡ first_failed (order_tests plan.now earlier.now row) }
{
    let place = Place::order(1, earlier.len() as u32 + 1);
    if !is_order(plan, row) {
        return Err((PlantFault::BadOrder, place));
    }
    if !has_control(plan.sizes(), row.control) {
        return Err((PlantFault::BadRef, place));
    }
    Ok(())
}

fn check_orders(plan: &ControllerPlan, orders: &[OrderRow]) -> Result<(), (PlantFault, Place)>
    requires { length orders.now ≤ ORDER_LIMIT }
    ensures { result ≡ first_failed (tests_of_each (order_tests plan.now) orders.now) }
{
    for (i, row) in orders.iter().enumerate() {
        check_order(plan, &orders[..i], *row)?;
    }
    Ok(())
}

fn has_power_numbers(plan: &ControllerPlan, row: PowerRow) -> bool
    ensures { result ≡ has_power_numbers plan.now row }
{
    1 <= row.scan
        && row.scan <= MOST_SCANS
        && row.dark <= DARK_LIMIT
        && usize::from(row.row) <= plan.orders.as_slice().len()
}

/// Whether a row's scan comes after the last dark one of the row before.
pub fn is_behind_dark(before: Option<PowerRow>, row: PowerRow) -> bool
    ensures { result ≡ is_behind_dark before row }
{
    match before {
        Some(before) => u64::from(before.scan) + u64::from(before.dark) < u64::from(row.scan),
        None => true,
    }
}

fn check_power_row(
    plan: &ControllerPlan,
    earlier: &[PowerRow],
    row: PowerRow,
) -> Result<(), (PlantFault, Place)>
    requires { length earlier.now < POWER_LIMIT }
    ensures { result ≡ first_failed (power_tests plan.now earlier.now row) }
{
    if has_power_numbers(plan, row) && is_behind_dark(earlier.last().copied(), row) {
        Ok(())
    } else {
        let place = Place::power(1, earlier.len() as u32 + 1);
        Err((PlantFault::BadPower, place))
    }
}

fn check_power(plan: &ControllerPlan, power: &[PowerRow]) -> Result<(), (PlantFault, Place)>
    requires { length power.now ≤ POWER_LIMIT }
    ensures { result ≡ first_failed (tests_of_each (power_tests plan.now) power.now) }
{
    for (i, row) in power.iter().enumerate() {
        check_power_row(plan, &power[..i], *row)?;
    }
    Ok(())
}

fn check_reference(sizes: Sizes, earlier: &[Ref], at: Ref) -> Result<(), (PlantFault, Place)>
    requires { length earlier.now < PANEL_LIMIT }
    ensures { result ≡ first_failed (panel_tests sizes earlier.now at) }
{
    if sizes.has_reference(at) {
        Ok(())
    } else {
        let place = Place::panel(1, earlier.len() as u32 + 1);
        Err((PlantFault::BadRef, place))
    }
}

fn check_panel(sizes: Sizes, panel: &[Ref]) -> Result<(), (PlantFault, Place)>
    requires { length panel.now ≤ PANEL_LIMIT }
    ensures { result ≡ first_failed (tests_of_each (panel_tests sizes) panel.now) }
{
    for (i, at) in panel.iter().enumerate() {
        check_reference(sizes, &panel[..i], *at)?;
    }
    Ok(())
}

fn is_size(size: u16) -> bool
    ensures { result ≡ is_size size }
{
    size <= REFERENCE_LIMIT
}

fn is_discrete_size(size: u16) -> bool
    ensures { result ≡ is_discrete_size size }
{
    is_size(size) && size % 16 == 0
}

fn have_sizes(sizes: Sizes) -> bool
    ensures { result ≡ are_sizes sizes }
{
    is_discrete_size(sizes.coils)
        && is_discrete_size(sizes.inputs)
        && is_size(sizes.input_registers)
        && is_size(sizes.registers)
}

fn has_few(plan: &ControllerPlan) -> bool
    ensures { result ≡ has_few plan.now }
{
    plan.panel.as_slice().len() <= PANEL_LIMIT
        && plan.drops.as_slice().len() <= DROP_LIMIT
        && plan.segments.as_slice().len() <= SEGMENT_LIMIT
        && plan.orders.as_slice().len() <= ORDER_LIMIT
        && plan.power.as_slice().len() <= POWER_LIMIT
}

fn check_table(plan: &ControllerPlan) -> Result<(), PlantFault>
    ensures { result ≡ first_failed (table_tests plan.now) }
{
    if !(1 <= plan.node && plan.node <= NODE_LIMIT) {
        return Err(PlantFault::BadNode);
    }
    if !have_sizes(plan.sizes()) {
        return Err(PlantFault::BadValue);
    }
    if !has_few(plan) {
        return Err(PlantFault::TooLarge);
    }
    Ok(())
}

impl ControllerPlan {
    /// The first test that it does not pass, and the place of that: its address, its numbers of
    /// references and of items, the pieces of its networks, its order rows, its power rows, its panel.
    /// The tests of its drops are not among them. Places name the controller by 1, and the cells of
    /// a network stand before its shorts.
    pub fn check(&self) -> Result<(), (PlantFault, Place)>
        ensures { result ≡ first_failed (controller_tests self.now) }
    {
        Place::controller(1).locate(check_table(self))?;
        check_segments(self, self.segments.as_slice())?;
        check_orders(self, self.orders.as_slice())?;
        check_power(self, self.power.as_slice())?;
        check_panel(self.sizes(), self.panel.as_slice())
    }
}
