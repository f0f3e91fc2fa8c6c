//! The texts of the networks of a segment.
ghost use Rattle.std.specs.Prelude.{◌≡◌, ◌≤◌, length, map, IfOk};
ghost use Rattle.toml.specs.View.{table_view};
ghost use Rattle.plant_tables.specs.Given.{texts_in};
ghost use Rattle.plant_tables.specs.Refusals.{Gives};
ghost use Rattle.controller_tables.specs.Texts.{network_texts};

use plant_tables::{LoadEnd, TableKind, table_passes, texts_at};
use plant_types::{NETWORK_LIMIT, Place};
use std::alloc::Global;
use toml::Table;

/// The texts of the networks of the segment of a number, at most 1000.
#[tactic(auto, unfolding(crate::specs::Texts::network_texts))]
pub fn network_texts<'a>(
    alloc: Global,
    controller: u32,
    number: u32,
    table: &'a Table,
) -> Result<Vec<&'a str>, LoadEnd>
    ensures read { Gives (λ texts. texts_in texts.items) result
        (network_texts controller number (table_view table.now)) }
    ensures few { IfOk result (λ texts. length texts.items ≤ NETWORK_LIMIT) }
{
    let place = Place::segment(controller, number);
    table_passes(place, TableKind::Segment, table)?;
    texts_at(alloc, place, NETWORK_LIMIT, "networks", table)
}
