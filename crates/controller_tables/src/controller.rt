//! The map of a controller, and its panel.
ghost use Rattle.std.specs.Prelude.{◌≡◌, ◌≤◌, length, map};
ghost use Rattle.toml.specs.View.{table_view};
ghost use Rattle.plant_tables.specs.Given.{texts_in};
ghost use Rattle.plant_tables.specs.Refusals.{Gives};
ghost use Rattle.controller_tables.specs.Controller.{sizes_at, panel_item, panel_of};

use crate::owner::Owner;
use cell_text::{only_word, reference_of};
use plant_tables::{LoadEnd, Refusal, discrete_size_at, size_at};
use plant_types::{List, PANEL_LIMIT, Place, PlantFault, Ref, Sizes};
use std::alloc::Global;
use toml::Table;

/// How many references of each kind the controller of a table has.
#[tactic(auto, unfolding(crate::specs::Controller::sizes_at))]
pub fn sizes_at(place: Place, table: &Table) -> Result<Sizes, Refusal>
    ensures { result ≡ sizes_at place (table_view table.now) }
{
    let coils = discrete_size_at(place, "coils", table)?;
    let inputs = discrete_size_at(place, "inputs", table)?;
    let input_registers = size_at(place, "input_registers", table)?;
    let registers = size_at(place, "registers", table)?;
    Ok(Sizes {
        coils,
        inputs,
        input_registers,
        registers,
    })
}

#[tactic(auto, unfolding(crate::specs::Controller::panel_item))]
fn panel_item(owner: Owner, number: u32, text: &str) -> Result<Ref, Refusal>
    ensures { result ≡ panel_item owner number text.now }
{
    let refused = (PlantFault::BadRef, Place::panel(owner.position, number));
    let Some(word) = only_word(text.as_bytes()) else {
        return Err(refused);
    };
    let Some(at) = reference_of(word) else {
        return Err(refused);
    };
    if owner.sizes.has_reference(at) {
        Ok(at)
    } else {
        Err(refused)
    }
}

/// The references of the panel.
pub fn panel_of(alloc: Global, owner: Owner, texts: &[&str]) -> Result<List<Ref>, LoadEnd>
    requires { length texts.now ≤ PANEL_LIMIT }
    ensures { Gives (λ panel. panel) result (panel_of owner (texts_in texts.now)) }
{
    let mut panel = List::new(alloc);
    let mut number = 0;
    for text in texts {
        number += 1;
        let at = panel_item(owner, number, text)?;
        panel.push(at)?;
    }
    Ok(panel)
}
