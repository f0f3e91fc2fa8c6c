//! The values at the keys of a table.
ghost use Rattle.std.specs.Prelude.{◌≡◌, ◌≤◌, length, map, option_map, string_bytes};
ghost use Rattle.std.specs.Prelude.{IfOk, OnOk, IfSome};
ghost use Rattle.std.specs.BTreeMap as tree;
ghost use Rattle.std.specs.Str.{bytes_eq};
ghost use Rattle.std.specs.List.{list_any, list_all};
ghost use Rattle.toml.specs.Data.{as_str, as_table, get_member};
ghost use Rattle.toml.specs.View.{view, items_view, table_view};
ghost use Rattle.plant_tables.specs.Given.{tables_in, texts_in};
ghost use Rattle.plant_tables.specs.Refusals.{Gives, Sees};
ghost use Rattle.plant_tables.specs.Keys.{has_only, has_each, keys_from, keys_pass, number_within};
ghost use Rattle.plant_tables.specs.Keys.{InRange, number_from, number_at_key, address_at};
ghost use Rattle.plant_tables.specs.Keys.{number_at_or, size_at, discrete_size_at, array_at};
ghost use Rattle.plant_tables.specs.Keys.{are_few, items_as, texts_at, tables_at, table_at};

use crate::refusal::{LoadEnd, Refusal};
use plant_types::{NODE_LIMIT, Place, PlantFault, REFERENCE_LIMIT};
use std::alloc::Global;
use toml::{Table, Value};

/// Discretes come in so many.
const GROUP: u16 = 16;

/// What stands at a key.
pub fn value_at<'a>(table: &'a Table, key: &str) -> Option<&'a Value>
    ensures { option_map (λ v. view v.now) result ≡ get_member key.now (table_view table.now) }
{
    table.get(key)
}

fn is_among(key: &str, keys: &[&str]) -> bool
    ensures { result ≡ list_any (λ known. bytes_eq known.now key.now) keys.now }
{
    keys.iter().any(|known| *known == key)
}

fn all_among(table: &Table, known: &[&str]) -> bool
    ensures { result ≡ list_all (λ key. list_any (λ k. bytes_eq k.now (string_bytes key)) known.now)
        (tree.keys table.now) }
{
    table.keys().all(|key| is_among(key.as_str(), known))
}

fn has_only(table: &Table, known: &[&str]) -> bool
    ensures { result ≡ has_only (texts_in known.now) (table_view table.now) }
{
    all_among(table, known)
}

fn has_each(table: &Table, keys: &[&str]) -> bool
    ensures { result ≡ has_each (texts_in keys.now) (table_view table.now) }
{
    for key in keys {
        if value_at(table, key).is_none() {
            return false;
        }
    }
    true
}

/// A table has no key but those that are known, and each that is required.
pub fn keys_pass(
    place: Place,
    known: &[&str],
    required: &[&str],
    table: &Table,
) -> Result<(), Refusal>
    ensures { let keys = keys_from (texts_in known.now) (texts_in required.now) in
        result ≡ keys_pass place keys (table_view table.now) }
{
    if has_only(table, known) && has_each(table, required) {
        Ok(())
    } else {
        Err((PlantFault::BadKey, place))
    }
}

/// A whole number, where it is from low to high.
pub fn number_from(low: u32, high: u32, number: i64) -> Option<u32>
    ensures read { result ≡ number_from low high number }
    ensures within { IfSome result (InRange low high) }
{
    let Ok(number) = u32::try_from(number) else {
        return None;
    };
    if low <= number && number <= high {
        Some(number)
    } else {
        None
    }
}

/// A whole number from low to high; `fault` is that of another one.
fn number_within(
    place: Place,
    fault: PlantFault,
    low: u32,
    high: u32,
    value: &Value,
) -> Result<u32, Refusal>
    ensures read { result ≡ number_within place (fault, place) low high (view value.now) }
    ensures within { IfOk result (InRange low high) }
{
    let Some(number) = value.as_integer() else {
        return Err((PlantFault::BadValue, place));
    };
    match number_from(low, high, number) {
        Some(number) => Ok(number),
        None => Err((fault, place)),
    }
}

/// The number at a key that has to be there; `fault` is that of one out of range.
#[tactic(auto, unfolding(crate::specs::Keys::number_at_key))]
pub fn number_at_key(
    place: Place,
    fault: PlantFault,
    key: &str,
    low: u32,
    high: u32,
    table: &Table,
) -> Result<u32, Refusal>
    ensures read { result ≡ number_at_key place fault key.now low high (table_view table.now) }
    ensures within { IfOk result (InRange low high) }
{
    match value_at(table, key) {
        Some(value) => number_within(place, fault, low, high, value),
        None => Err((PlantFault::BadKey, place)),
    }
}

/// The address of a node.
pub fn address_at(place: Place, table: &Table) -> Result<u8, Refusal>
    ensures read { result ≡ address_at place (table_view table.now) }
    ensures within { IfOk result (InRange 1 NODE_LIMIT) }
{
    let node = number_at_key(
        place,
        PlantFault::BadNode,
        "node",
        1,
        u32::from(NODE_LIMIT),
        table,
    )?;
    Ok(node as u8)
}

/// The number at a key, or a default where the key is not there.
pub fn number_at_or(
    place: Place,
    key: &str,
    default: u32,
    low: u32,
    high: u32,
    table: &Table,
) -> Result<u32, Refusal>
    requires default { InRange low high default }
    ensures read { result ≡ number_at_or place key.now default low high (table_view table.now) }
    ensures within { IfOk result (InRange low high) }
{
    match value_at(table, key) {
        Some(value) => number_within(place, PlantFault::BadValue, low, high, value),
        None => Ok(default),
    }
}

/// A number of references, 0 where its key is not there.
pub fn size_at(place: Place, key: &str, table: &Table) -> Result<u16, Refusal>
    ensures { result ≡ size_at place key.now (table_view table.now) }
{
    let size = number_at_or(place, key, 0, 0, u32::from(REFERENCE_LIMIT), table)?;
    Ok(size as u16)
}

/// A number of discretes, which come in sixteens.
pub fn discrete_size_at(place: Place, key: &str, table: &Table) -> Result<u16, Refusal>
    ensures { result ≡ discrete_size_at place key.now (table_view table.now) }
{
    let size = size_at(place, key, table)?;
    if size % GROUP == 0 {
        Ok(size)
    } else {
        Err((PlantFault::BadValue, place))
    }
}

/// The items of the array at a key, where the key is there.
fn array_at<'a>(place: Place, key: &str, table: &'a Table) -> Result<Option<&'a [Value]>, Refusal>
    ensures { Sees (option_map (λ items. items_view items.now)) result
        (array_at place key.now (table_view table.now)) }
{
    let Some(value) = value_at(table, key) else {
        return Ok(None);
    };
    match value.as_array() {
        Some(items) => Ok(Some(items.as_slice())),
        None => Err((PlantFault::BadValue, place)),
    }
}

fn texts_of<'a>(alloc: Global, place: Place, items: &'a [Value]) -> Result<Vec<&'a str>, LoadEnd>
    ensures read { Gives (λ texts. texts_in texts.items) result
        (items_as as_str place (items_view items.now)) }
    ensures count { IfOk result (λ texts. length texts.items ≡ length items.now) }
{
    let mut texts = Vec::new(alloc);
    for item in items {
        let Some(text) = item.as_str() else {
            return Err(LoadEnd::Refused(PlantFault::BadValue, place));
        };
        if texts.push(text).is_err() {
            return Err(LoadEnd::NoMemory);
        }
    }
    Ok(texts)
}

fn tables_of<'a>(alloc: Global, place: Place, items: &'a [Value]) -> Result<Vec<&'a Table>, LoadEnd>
    ensures read { Gives (λ tables. tables_in tables.items) result
        (items_as as_table place (items_view items.now)) }
    ensures count { IfOk result (λ tables. length tables.items ≡ length items.now) }
{
    let mut tables = Vec::new(alloc);
    for item in items {
        let Some(table) = item.as_table() else {
            return Err(LoadEnd::Refused(PlantFault::BadValue, place));
        };
        if tables.push(table).is_err() {
            return Err(LoadEnd::NoMemory);
        }
    }
    Ok(tables)
}

/// An array has so many items at most.
fn are_few(place: Place, most: usize, count: usize) -> Result<(), Refusal>
    ensures read { result ≡ are_few place most count }
    ensures few { OnOk result (count ≤ most) }
{
    if count <= most {
        Ok(())
    } else {
        Err((PlantFault::TooLarge, place))
    }
}

/// The texts of the array at a key, so many at most; none where the key is not there.
pub fn texts_at<'a>(
    alloc: Global,
    place: Place,
    most: usize,
    key: &str,
    table: &'a Table,
) -> Result<Vec<&'a str>, LoadEnd>
    ensures read { Gives (λ texts. texts_in texts.items) result
        (texts_at place most key.now (table_view table.now)) }
    ensures few { IfOk result (λ texts. length texts.items ≤ most) }
{
    let Some(items) = array_at(place, key, table)? else {
        return Ok(Vec::new(alloc));
    };
    let texts = texts_of(alloc, place, items)?;
    are_few(place, most, texts.len())?;
    Ok(texts)
}

/// The tables of the array at a key, so many at most; none where the key is not there.
pub fn tables_at<'a>(
    alloc: Global,
    place: Place,
    most: usize,
    key: &str,
    table: &'a Table,
) -> Result<Vec<&'a Table>, LoadEnd>
    ensures read { Gives (λ tables. tables_in tables.items) result
        (tables_at place most key.now (table_view table.now)) }
    ensures few { IfOk result (λ tables. length tables.items ≤ most) }
{
    let Some(items) = array_at(place, key, table)? else {
        return Ok(Vec::new(alloc));
    };
    let tables = tables_of(alloc, place, items)?;
    are_few(place, most, tables.len())?;
    Ok(tables)
}

/// The table at a key, where the key is there.
pub fn table_at<'a>(place: Place, key: &str, table: &'a Table) -> Result<Option<&'a Table>, Refusal>
    ensures { Sees (option_map (λ t. table_view t.now)) result
        (table_at place key.now (table_view table.now)) }
{
    let Some(value) = value_at(table, key) else {
        return Ok(None);
    };
    match value.as_table() {
        Some(found) => Ok(Some(found)),
        None => Err((PlantFault::BadValue, place)),
    }
}
