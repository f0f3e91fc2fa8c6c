//! The routes of requests by their words.
ghost use Rattle.std.specs.Prelude.{◌≡◌, ◌≤◌, length, true};
ghost use Rattle.std.specs.List.{list_all};
ghost use Rattle.plant_types.specs.Numerals.{is_numeral};
ghost use Rattle.plant_tables.specs.Routes.{route_words, most_addresses, is_route, route_from};

use crate::numerals::{is_numeral, numeral_within};
use crate::tables::Version;
use plant_types::{NODE_LIMIT, ROUTE_LIMIT, Route};

/// The most addresses of a route.
fn most_addresses(version: Version) -> usize
    ensures { result ≡ most_addresses version }
{
    match version {
        Version::One => 1,
        Version::Two => ROUTE_LIMIT,
    }
}

/// Whether a route reads: numbers without a leading zero, joined by points, and not too many.
pub fn is_route(version: Version, word: &[u8]) -> bool
    ensures { result ≡ is_route version word.now }
{
    let mut left = most_addresses(version);
    for part in word.split(|byte| *byte == b'.') {
        if left == 0 || !is_numeral(part) {
            return false;
        }
        left -= 1;
    }
    true
}

/// The route of a word that reads, where a host of a node can ask by it.
pub fn route_from(node: u8, word: &[u8]) -> Option<Route>
    requires few { length (route_words word.now) ≤ ROUTE_LIMIT }
    requires numbers { list_all is_numeral (route_words word.now) ≡ true }
    ensures { result ≡ route_from node word.now }
{
    let mut addresses = [0; ROUTE_LIMIT];
    let mut count = 0;
    for part in word.split(|byte| *byte == b'.') {
        addresses[count] = numeral_within(1, u32::from(NODE_LIMIT), part)? as u8;
        count += 1;
    }
    if addresses[0] == node {
        None
    } else {
        Some(Route::of(&addresses[..count]))
    }
}
