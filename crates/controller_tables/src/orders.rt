//! The order rows of a controller.
ghost use Rattle.std.specs.Prelude.{◌≡◌, ◌≤◌, length, map, option_map, Some};
ghost use Rattle.cell_text.specs.Words.{text_words};
ghost use Rattle.plant_tables.specs.Given.{texts_in};
ghost use Rattle.plant_tables.specs.Refusals.{Gives};
ghost use Rattle.controller_tables.specs.Orders.{order_in, order_words, nameable, is_solved};
ghost use Rattle.controller_tables.specs.Orders.{segment_in, names_nothing, reads_as_control};
ghost use Rattle.controller_tables.specs.Orders.{control_in, drop_of, order_row, orders_of};

use crate::drops::drop_number;
use crate::owner::Owner;
use cell_text::{is_reference_word, is_text, next_word, reference_of, spelled_number};
use plant_tables::{LoadEnd, Refusal};
use plant_types::{
    IoDrop, List, ORDER_LIMIT, OrderRow, Place, PlantFault, Ref, Segment, Sizes, has_control,
    is_segment, is_subroutines,
};
use std::alloc::Global;

/// The four words of an order row.
#[derive(Clone, Copy)]
struct OrderWords<'a> {
    segment: &'a [u8],
    control: &'a [u8],
    input: &'a [u8],
    output: &'a [u8],
}

fn order_words(text: &[u8]) -> Option<OrderWords<'_>>
    ensures { option_map order_in result ≡ order_words (text_words text.now) }
{
    let (segment, rest) = next_word(text)?;
    let (control, rest) = next_word(rest)?;
    let (input, rest) = next_word(rest)?;
    let (output, rest) = next_word(rest)?;
    if next_word(rest).is_some() {
        return None;
    }
    Some(OrderWords {
        segment,
        control,
        input,
        output,
    })
}

/// Whether an order row can solve the segment of a number.
fn is_solved(segments: &[Segment], number: u16) -> bool
    ensures { result ≡ is_solved segments.now number }
{
    is_segment(segments, number) && !is_subroutines(segments, number)
}

fn segment_in(segments: &[Segment], word: &[u8]) -> Option<u16>
    ensures { result ≡ segment_in segments.now word.now }
{
    let segment = spelled_number(word)?;
    if is_solved(segments, segment) {
        Some(segment)
    } else {
        None
    }
}

fn names_nothing(word: &[u8]) -> bool
    ensures { result ≡ names_nothing word.now }
{
    is_text(word, "-")
}

fn reads_as_control(word: &[u8]) -> bool
    ensures { result ≡ reads_as_control word.now }
{
    names_nothing(word) || is_reference_word(word)
}

#[tactic(auto, unfolding(crate::specs::Orders::control_in))]
fn control_in(sizes: Sizes, place: Place, word: &[u8]) -> Result<Option<Ref>, Refusal>
    ensures { result ≡ control_in sizes place word.now }
{
    if names_nothing(word) {
        return Ok(None);
    }
    let Some(at) = reference_of(word) else {
        return Err((PlantFault::BadRef, place));
    };
    if has_control(sizes, Some(at)) {
        Ok(Some(at))
    } else {
        Err((PlantFault::BadRef, place))
    }
}

fn drop_of(drops: &[IoDrop], word: &[u8]) -> Option<Option<u8>>
    ensures { result ≡ drop_of drops.now word.now }
{
    if names_nothing(word) {
        return Some(None);
    }
    let number = drop_number(drops, spelled_number(word)?)?;
    Some(Some(number))
}

#[tactic(auto, unfolding(crate::specs::Orders::order_row))]
fn order_row(
    owner: Owner,
    segments: &[Segment],
    drops: &[IoDrop],
    number: u32,
    text: &str,
) -> Result<OrderRow, Refusal>
    ensures { result ≡ order_row (nameable owner segments.now drops.now) number text.now }
{
    let place = Place::order(owner.position, number);
    let bad_order = (PlantFault::BadOrder, place);
    let Some(words) = order_words(text.as_bytes()) else {
        return Err(bad_order);
    };
    let Some(segment) = segment_in(segments, words.segment) else {
        return Err(bad_order);
    };
    if !reads_as_control(words.control) {
        return Err(bad_order);
    }
    let Some(input) = drop_of(drops, words.input) else {
        return Err(bad_order);
    };
    let Some(output) = drop_of(drops, words.output) else {
        return Err(bad_order);
    };
    let control = control_in(owner.sizes, place, words.control)?;
    Ok(OrderRow {
        segment,
        control,
        input,
        output,
    })
}

/// The order rows of a controller, which can name these segments and drops.
pub fn orders_of(
    alloc: Global,
    owner: Owner,
    segments: &[Segment],
    drops: &[IoDrop],
    texts: &[&str],
) -> Result<List<OrderRow>, LoadEnd>
    requires { length texts.now ≤ ORDER_LIMIT }
    ensures { let there = nameable owner segments.now drops.now in
        Gives (λ rows. rows) result (orders_of there (texts_in texts.now)) }
{
    let mut rows = List::new(alloc);
    let mut number = 0;
    for text in texts {
        number += 1;
        let row = order_row(owner, segments, drops, number, text)?;
        rows.push(row)?;
    }
    Ok(rows)
}
