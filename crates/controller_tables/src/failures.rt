//! The power rows of a controller.
ghost use Rattle.std.specs.Prelude.{◌≡◌, ◌≤◌, length, map, option_map};
ghost use Rattle.cell_text.specs.Words.{text_words};
ghost use Rattle.plant_tables.specs.Given.{texts_in};
ghost use Rattle.plant_tables.specs.Refusals.{Gives};
ghost use Rattle.controller_tables.specs.Failures.{power_words_in, power_words};
ghost use Rattle.controller_tables.specs.Failures.{power_row, power_rows_of};

use crate::owner::Owner;
use cell_text::next_word;
use plant_tables::{LoadEnd, Refusal, numeral_within};
use plant_types::{
    DARK_LIMIT, List, MOST_SCANS, ORDER_LIMIT, OrderRow, POWER_LIMIT, Place, PlantFault, PowerRow,
    is_behind_dark,
};
use std::alloc::Global;

/// The three words of a power row.
#[derive(Clone, Copy)]
struct PowerWords<'a> {
    scan: &'a [u8],
    row: &'a [u8],
    dark: &'a [u8],
}

fn power_words(text: &[u8]) -> Option<PowerWords<'_>>
    ensures { option_map power_words_in result ≡ power_words (text_words text.now) }
{
    let (scan, rest) = next_word(text)?;
    let (row, rest) = next_word(rest)?;
    let (dark, rest) = next_word(rest)?;
    if next_word(rest).is_some() {
        return None;
    }
    Some(PowerWords { scan, row, dark })
}

#[tactic(auto, unfolding(crate::specs::Failures::power_row))]
fn power_row(
    owner: Owner,
    orders: &[OrderRow],
    earlier: &[PowerRow],
    number: u32,
    text: &str,
) -> Result<PowerRow, Refusal>
    requires { length orders.now ≤ ORDER_LIMIT }
    ensures { result ≡ power_row owner (length orders.now) earlier.now (number, text.now) }
{
    let bad_power = (PlantFault::BadPower, Place::power(owner.position, number));
    let Some(words) = power_words(text.as_bytes()) else {
        return Err(bad_power);
    };
    let Some(scan) = numeral_within(1, MOST_SCANS, words.scan) else {
        return Err(bad_power);
    };
    let Some(row) = numeral_within(0, orders.len() as u32, words.row) else {
        return Err(bad_power);
    };
    let Some(dark) = numeral_within(0, DARK_LIMIT, words.dark) else {
        return Err(bad_power);
    };
    let row = row as u16;
    let found = PowerRow { scan, row, dark };
    if is_behind_dark(earlier.last().copied(), found) {
        Ok(found)
    } else {
        Err(bad_power)
    }
}

/// The power rows of a controller that has these order rows.
#[tactic(auto, unfolding(plant_tables::specs::InOrder::each_behind))]
pub fn power_rows_of(
    alloc: Global,
    owner: Owner,
    orders: &[OrderRow],
    texts: &[&str],
) -> Result<List<PowerRow>, LoadEnd>
    requires orders { length orders.now ≤ ORDER_LIMIT }
    requires texts { length texts.now ≤ POWER_LIMIT }
    ensures { Gives (λ rows. rows) result
        (power_rows_of owner (length orders.now) (texts_in texts.now)) }
{
    let mut rows = List::new(alloc);
    let mut number = 0;
    for text in texts {
        number += 1;
        let row = power_row(owner, orders, rows.as_slice(), number, text)?;
        rows.push(row)?;
    }
    Ok(rows)
}
