//! What the field brings in a scan of both, and the ways that it is for each of the two.
ghost use Rattle.std.specs.Prelude.{◌≡◌, ◌<◌, ◌^◌, ◌++◌, ◌==◌, IfOk, OnOk};
ghost use Rattle.std.specs.List.{position_from};
ghost use Rattle.field_pair.specs.Choices.{AreSome, InRange, TakesOut, brought_by, choices_of_both};
ghost use Rattle.field_pair.specs.Choices.{next_brought, product_of, reads_of, way_in, ways_of};
ghost use Rattle.field_pair.specs.Choices.{without_next};
ghost use Rattle.field_pair.specs.Exchanged.{beyond, drops_read, read_by_both};

use field_machine::{Exchange, choices_for, product};
use plant_types::ControllerPlan;
use std::alloc::{AllocError, Global};

/// An input exchange that a scan of both has: with which drop, and how many rows the field has for
/// it. This project's own.
#[derive(Clone, Copy)]
pub(crate) struct Choice {
    pub(crate) drop: u8,
    pub(crate) many: u32,
}

/// What a row of an order of solve reads: a drop, if it reads one, and how many rows the field has
/// for it. This project's own.
#[derive(Clone, Copy)]
pub(crate) struct Read {
    pub(crate) drop: Option<u8>,
    pub(crate) many: u32,
}

/// The drops that a scan reads, in their order.
fn drops_read(alloc: Global, plan: &ControllerPlan) -> Result<Vec<u8>, AllocError>
    ensures { IfOk result (λ drops. drops.items ≡ drops_read plan.now) }
{
    let orders = plan.orders.as_slice();
    orders.iter().filter_map(|row| row.input).collect(alloc)
}

/// The place of the first of a list that is this number.
fn place_of(drops: &[u8], number: u8) -> Option<usize>
    ensures { result ≡ position_from (λ drop. drop == number) 0 drops.now }
{
    drops.iter().position(|drop| *drop == number)
}

/// Takes the first of a list that is this number out of it, if there is one.
fn take_out(drops: &mut Vec<u8>, number: u8) -> bool
    ensures { TakesOut drops.old.items drops.new.items number result }
{
    match place_of(drops.as_slice(), number) {
        Some(place) => {
            drops.remove(place);
            true
        }
        None => false,
    }
}

/// Adds the drops of a list beyond those of another.
fn add_beyond(drops: &mut Vec<u8>, read: &[u8], others: Vec<u8>) -> Result<(), AllocError>
    ensures { OnOk result (drops.new.items ≡ drops.old.items ++ beyond read.now others.items) }
{
    let mut left = others;
    for drop in read {
        if !take_out(&mut left, *drop) {
            drops.push(*drop)?;
        }
    }
    Ok(())
}

/// The drops that a scan of both reads.
fn read_by_both(
    alloc: Global,
    old: &ControllerPlan,
    new: &ControllerPlan,
) -> Result<Vec<u8>, AllocError>
    ensures { IfOk result (λ drops. drops.items ≡ read_by_both old.now new.now) }
{
    let mut drops = drops_read(alloc, old)?;
    let others = drops.clone()?;
    let read = drops_read(alloc, new)?;
    add_beyond(&mut drops, read.as_slice(), others)?;
    Ok(drops)
}

/// The exchanges that a scan of both has, with how many rows the field has for each.
pub(crate) fn choices_of_both(
    alloc: Global,
    old: &ControllerPlan,
    new: &ControllerPlan,
) -> Result<Vec<Choice>, AllocError>
    ensures { IfOk result (λ choices. choices.items ≡ choices_of_both old.now new.now) }
{
    let drops = read_by_both(alloc, old, new)?;
    let mut choices = Vec::new(alloc);
    for drop in drops.as_slice() {
        let many = choices_for(old.drops.as_slice(), Some(*drop))?;
        choices.push(Choice { drop: *drop, many })?;
    }
    Ok(choices)
}

/// In how many ways the field can bring rows at these exchanges. Where they cannot be counted, so
/// many states do not fit.
pub(crate) fn ways_of(alloc: Global, choices: &[Choice]) -> Result<usize, AllocError>
    ensures { IfOk result (λ ways. ways ≡ ways_of choices.now) }
{
    let mut numbers = Vec::new(alloc);
    for choice in choices {
        numbers.push(choice.many)?;
    }
    product(numbers.as_slice())
}

/// What the rows of an order of solve read.
pub(crate) fn reads_of(alloc: Global, plan: &ControllerPlan) -> Result<Vec<Read>, AllocError>
    ensures { IfOk result (λ reads. reads.items ≡ reads_of plan.now) }
{
    let mut reads = Vec::new(alloc);
    for row in plan.orders.as_slice() {
        let many = choices_for(plan.drops.as_slice(), row.input)?;
        reads.push(Read {
            drop: row.input,
            many,
        })?;
    }
    Ok(reads)
}

/// Writes the exchanges of a scan in which the field brings rows in this way.
pub(crate) fn bring(
    exchanges: &mut Vec<Exchange>,
    choices: &[Choice],
    way: usize,
) -> Result<(), AllocError>
    requires { AreSome choices.now }
    ensures { OnOk result (exchanges.new.items ≡ brought_by choices.now way) }
{
    exchanges.clear();
    let mut left = way;
    for choice in choices {
        let many = choice.many as usize;
        let row = (left % many) as u32 + 1;
        exchanges.push(Exchange {
            drop: choice.drop,
            row,
        })?;
        left /= many;
    }
    Ok(())
}

/// The place of the first exchange with a drop.
fn place_with(exchanges: &[Exchange], number: u8) -> Option<usize>
    ensures { result ≡ position_from (λ exchange. exchange.drop == number) 0 exchanges.now }
{
    exchanges
        .iter()
        .position(|exchange| exchange.drop == number)
}

/// The number of the row that the next exchange with a drop brings, which is taken out; 1 where
/// there is none.
fn take_next(exchanges: &mut Vec<Exchange>, drop: Option<u8>) -> u32
    ensures row { result ≡ next_brought drop exchanges.old.items }
    ensures left { exchanges.new.items ≡ without_next drop exchanges.old.items }
{
    let Some(number) = drop else { return 1 };
    match place_with(exchanges.as_slice(), number) {
        Some(place) => exchanges.remove(place).row,
        None => 1,
    }
}

/// The way in which these exchanges bring rows to the rows of an order of solve.
pub(crate) fn way_of(reads: &[Read], exchanges: &mut Vec<Exchange>) -> usize
    requires fits { product_of reads.now < 2 ^ 64 }
    requires range { InRange reads.now exchanges.old.items }
    ensures way { result ≡ way_in reads.now exchanges.old.items }
    ensures below { result < product_of reads.now }
{
    let Some((read, rest)) = reads.split_first() else {
        return 0;
    };
    let digit = take_next(exchanges, read.drop) - 1;
    let behind = way_of(rest, exchanges);
    digit as usize + read.many as usize * behind
}
