//! Routes that are read back.
ghost use Rattle.std.specs.Prelude.{◌≡◌};
ghost use Rattle.journal_reading.specs.Reading.{Reads, if_route, read_addresses, read_route};
ghost use Rattle.journal_reading.specs.Reading.{read_way, read_route_or_dash};

use crate::cutting::{LineFault, is_text, parted, read_small};
use plant_types::{List, ROUTE_LIMIT, Route};
use std::alloc::Global;

/// Addresses with points between them.
fn read_addresses(alloc: Global, text: &[u8]) -> Result<List<u8>, LineFault>
    ensures { Reads (λ addresses. addresses) result (read_addresses text.now) }
{
    let mut addresses = List::new(alloc);
    let mut rest = text;
    loop {
        match parted(rest, b'.') {
            Some((piece, behind)) => {
                let address = read_small(piece)?;
                addresses.push(address)?;
                rest = behind;
            }
            None => {
                let last = read_small(rest)?;
                addresses.push(last)?;
                return Ok(addresses);
            }
        }
    }
}

/// Addresses, if a route can have so many.
fn if_route(addresses: &[u8]) -> Result<Route, LineFault>
    ensures { Reads (λ route. route) result (if_route addresses.now) }
{
    if addresses.len() > ROUTE_LIMIT {
        return Err(LineFault::Wrong);
    }
    Ok(Route::of(addresses))
}

#[tactic(auto, unfolding(crate::specs::Reading::read_route))]
pub(crate) fn read_route(alloc: Global, text: &[u8]) -> Result<Route, LineFault>
    ensures { Reads (λ route. route) result (read_route text.now) }
{
    let addresses = read_addresses(alloc, text)?;
    if_route(addresses.as_slice())
}

/// A route, or the dash that stands for none.
#[tactic(auto, unfolding(crate::specs::Reading::read_route_or_dash))]
pub(crate) fn read_route_or_dash(alloc: Global, text: &[u8]) -> Result<Route, LineFault>
    ensures { Reads (λ route. route) result (read_route_or_dash text.now) }
{
    if is_text(text, "-") {
        return Ok(Route::of(&[]));
    }
    read_route(alloc, text)
}

/// Where a frame goes, and a route from there on.
#[tactic(auto, unfolding(crate::specs::Reading::read_way))]
pub(crate) fn read_way(alloc: Global, text: &[u8]) -> Result<(u8, Route), LineFault>
    ensures { Reads (λ way. way) result (read_way text.now) }
{
    let addresses = read_addresses(alloc, text)?;
    match addresses.as_slice() {
        [to, rest @ ..] => {
            let rest = if_route(rest)?;
            Ok((*to, rest))
        }
        [] => Err(LineFault::Wrong),
    }
}
