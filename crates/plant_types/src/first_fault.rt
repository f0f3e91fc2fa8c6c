//! The first test that the cells and shorts of a network do not pass.
ghost use Rattle.std.specs.Prelude.{◌≡◌};
ghost use Rattle.plant_types.specs.Network.{is_row, is_column, has_cell_place, has_short_place};
ghost use Rattle.plant_types.specs.Checks.{sizes_of};
ghost use Rattle.plant_types.specs.FirstFault.{first_failed, tests_of_each, has_label_place};
ghost use Rattle.plant_types.specs.FirstFault.{cell_tests, short_tests, network_tests};

use crate::element::Element;
use crate::fault::PlantFault;
use crate::grid::{has_shape, has_short};
use crate::network::{Cell, Network, Short};
use crate::plan::ControllerPlan;
use crate::sizes::Sizes;

fn is_row(row: u8) -> bool
    ensures { result ≡ is_row row }
{
    1 <= row && row <= 7
}

fn is_column(column: u8) -> bool
    ensures { result ≡ is_column column }
{
    1 <= column && column <= 11
}

impl Cell {
    fn has_place(self) -> bool
        ensures { result ≡ has_cell_place self }
    {
        is_row(self.row) && is_column(self.column)
    }

    fn has_label_place(self) -> bool
        ensures { result ≡ has_label_place self }
    {
        match self.element {
            Element::Label(_) => self.row == 1 && self.column == 1,
            _ => true,
        }
    }

    /// The first test of a cell that it does not pass, behind the cells before it in its network.
    pub fn check(self, sizes: Sizes, earlier: &[Cell]) -> Result<(), PlantFault>
        ensures { result ≡ first_failed (cell_tests sizes earlier.now self) }
    {
        if !(self.has_place() && self.element.has_form()) {
            return Err(PlantFault::BadCell);
        }
        if !self.element.has_values() {
            return Err(PlantFault::BadValue);
        }
        if !(self.element.has_kinds() && sizes.has_room(self.element)) {
            return Err(PlantFault::BadRef);
        }
        if !(has_shape(earlier, self) && self.has_label_place()) {
            return Err(PlantFault::BadShape);
        }
        Ok(())
    }
}

impl Short {
    fn has_place(self) -> bool
        ensures { result ≡ has_short_place self }
    {
        1 <= self.row && self.row <= 6 && is_column(self.column)
    }

    /// The first test of a short that it does not pass, behind the shorts before it in its network.
    pub fn check(self, earlier: &[Short]) -> Result<(), PlantFault>
        ensures { result ≡ first_failed (short_tests earlier.now self) }
    {
        if !self.has_place() {
            return Err(PlantFault::BadCell);
        }
        if has_short(earlier, self) {
            return Err(PlantFault::BadShape);
        }
        Ok(())
    }
}

fn check_cells(sizes: Sizes, cells: &[Cell]) -> Result<(), PlantFault>
    ensures { result ≡ first_failed (tests_of_each (cell_tests sizes) cells.now) }
{
    for (i, cell) in cells.iter().enumerate() {
        cell.check(sizes, &cells[..i])?;
    }
    Ok(())
}

fn check_shorts(shorts: &[Short]) -> Result<(), PlantFault>
    ensures { result ≡ first_failed (tests_of_each short_tests shorts.now) }
{
    for (i, short) in shorts.iter().enumerate() {
        short.check(&shorts[..i])?;
    }
    Ok(())
}

impl Network {
    /// The first of its cells and shorts that does not pass the tests of its place, its form, its
    /// constants, its references and its shape. A LAB is tested for its position alone.
    pub fn check(&self, plan: &ControllerPlan) -> Result<(), PlantFault>
        ensures { result ≡ first_failed (network_tests (sizes_of plan.now) self.now) }
    {
        check_cells(plan.sizes(), self.cells.as_slice())?;
        check_shorts(self.shorts.as_slice())
    }
}
