//! The scripts of drops: what the field gives them at each exchange.
ghost use Rattle.std.specs.Prelude.{◌≡◌, ◌≤◌, ◌<◌, [], true, length, map};
ghost use Rattle.std.specs.List.{list_all};
ghost use Rattle.cell_text.specs.Words.{text_words};
ghost use Rattle.traffic_cop.specs.Exchange.{input_total};
ghost use Rattle.plant_tables.specs.Given.{texts_in};
ghost use Rattle.plant_tables.specs.InOrder.{each_of};
ghost use Rattle.plant_tables.specs.Refusals.{Gives, Makes};
ghost use Rattle.controller_tables.specs.Drops.{word_spelled, row_spelled, script_row, rows_of};
ghost use Rattle.controller_tables.specs.Drops.{or_zeros};

use cell_text::{has_words, next_word};
use plant_tables::{LoadEnd, Refusal, are_hex_digits, hex_digit};
use plant_types::{DROP_WORDS, List, Module, Place, PlantFault, SCRIPT_LIMIT, ScriptRow, Words};
use std::alloc::Global;
use traffic_cop::{fits_row, input_total, script_place};

fn word_spelled(place: Place, word: &[u8]) -> Result<u16, Refusal>
    ensures { result ≡ word_spelled place word.now }
{
    if !are_hex_digits(word) {
        return Err((PlantFault::BadScript, place));
    }
    let &[first, second, third, fourth] = word else {
        return Err((PlantFault::BadScript, place));
    };
    let high = hex_digit(first) * 16 + hex_digit(second);
    Ok((high * 16 + hex_digit(third)) * 16 + hex_digit(fourth))
}

fn hex_words(alloc: Global, place: Place, text: &[u8]) -> Result<Vec<u16>, LoadEnd>
    ensures { Gives (λ words. words.items) result
        (each_of (word_spelled place) (text_words text.now)) }
{
    let mut words = Vec::new(alloc);
    let mut rest = text;
    while let Some((word, behind)) = next_word(rest) {
        let value = word_spelled(place, word)?;
        if words.push(value).is_err() {
            return Err(LoadEnd::NoMemory);
        }
        rest = behind;
    }
    Ok(words)
}

#[tactic(auto, unfolding(crate::specs::Drops::row_spelled))]
fn row_spelled(alloc: Global, place: Place, text: &[u8]) -> Result<ScriptRow, LoadEnd>
    ensures { Gives (λ row. row) result (row_spelled place (text_words text.now)) }
{
    if has_words(text, &["X"]) {
        return Ok(ScriptRow::Silent);
    }
    let words = hex_words(alloc, place, text)?;
    Ok(ScriptRow::Row(Words::of(alloc, words.as_slice())?))
}

#[tactic(auto, unfolding(crate::specs::Drops::script_row))]
fn script_row(
    alloc: Global,
    modules: &[Module],
    place: Place,
    text: &str,
) -> Result<ScriptRow, LoadEnd>
    requires { input_total modules.now ≤ DROP_WORDS }
    ensures { Gives (λ row. row) result (script_row modules.now place text.now) }
{
    let row = row_spelled(alloc, place, text.as_bytes())?;
    if fits_row(modules, &row) {
        Ok(row)
    } else {
        Err(LoadEnd::Refused(PlantFault::BadScript, place))
    }
}

/// The script rows of the drop at a position, which has these modules.
pub fn rows_of(
    alloc: Global,
    controller: u32,
    modules: &[Module],
    drop: u32,
    texts: &[&str],
) -> Result<List<ScriptRow>, LoadEnd>
    requires words { input_total modules.now ≤ DROP_WORDS }
    requires few { length texts.now ≤ SCRIPT_LIMIT }
    ensures { Gives (λ rows. rows) result
        (rows_of controller modules.now drop (texts_in texts.now)) }
{
    let mut rows = List::new(alloc);
    let mut number = 0;
    for text in texts {
        number += 1;
        let row = script_row(alloc, modules, script_place(controller, drop, number), text)?;
        rows.push(row)?;
    }
    Ok(rows)
}

fn zeros(alloc: Global, modules: &[Module]) -> Result<List<ScriptRow>, LoadEnd>
    requires { input_total modules.now ≤ DROP_WORDS }
    ensures { Makes result (λ script. script ≡ or_zeros modules.now []) }
{
    let zeros = [0; DROP_WORDS];
    let words = Words::of(alloc, &zeros[..input_total(modules)])?;
    let mut script = List::new(alloc);
    script.push(ScriptRow::Row(words))?;
    Ok(script)
}

/// A script without rows is one row of zeros.
#[tactic(auto, using(crate::proofs::ScriptLemmas::some_rows, crate::proofs::ScriptLemmas::no_rows))]
pub fn or_zeros(
    alloc: Global,
    modules: &[Module],
    rows: List<ScriptRow>,
) -> Result<List<ScriptRow>, LoadEnd>
    requires { input_total modules.now ≤ DROP_WORDS }
    ensures { Makes result (λ script. script ≡ or_zeros modules.now rows) }
{
    if rows.as_slice().len() == 0 {
        zeros(alloc, modules)
    } else {
        Ok(rows)
    }
}
