//! The requests of a host by their texts.
ghost use Rattle.std.specs.Prelude.{◌≡◌, ◌≢◌, ◌≤◌, length, map, option_map, true, Err, IfOk};
ghost use Rattle.std.specs.List.{list_all};
ghost use Rattle.cell_text.specs.Words.{text_words};
ghost use Rattle.plant_types.specs.Words.{pdu_of};
ghost use Rattle.plant_tables.specs.Given.{texts_in};
ghost use Rattle.plant_tables.specs.Hex.{is_hex_digit, hex_pairs};
ghost use Rattle.plant_tables.specs.Refusals.{Gives, Makes};
ghost use Rattle.plant_loader.specs.Requests.{request_in, request_words, pdu_in};
ghost use Rattle.plant_loader.specs.Requests.{host_request, requests_of};

use cell_text::next_word;
use plant_tables::{
    LoadEnd, Version, are_hex_digits, hex_digit, is_route, numeral_within, request_place,
    route_from,
};
use plant_types::{DUE_LIMIT, HostAsk, List, Pdu, Place, PlantFault, REQUEST_LIMIT};
use std::alloc::Global;

/// The three words of a request.
#[derive(Clone, Copy)]
struct RequestWords<'a> {
    hold: &'a [u8],
    route: &'a [u8],
    pdu: &'a [u8],
}

fn request_words(text: &[u8]) -> Option<RequestWords<'_>>
    ensures { option_map request_in result ≡ request_words (text_words text.now) }
{
    let (hold, rest) = next_word(text)?;
    let (route, rest) = next_word(rest)?;
    let (pdu, rest) = next_word(rest)?;
    if next_word(rest).is_some() {
        return None;
    }
    Some(RequestWords { hold, route, pdu })
}

/// The bytes of hexadecimal digits, two for each.
fn hex_pairs(alloc: Global, digits: &[u8]) -> Result<Vec<u8>, LoadEnd>
    requires { list_all is_hex_digit digits.now ≡ true }
    ensures { Makes result (λ bytes. bytes.items ≡ hex_pairs digits.now) }
{
    let mut bytes = Vec::new(alloc);
    let mut rest = digits;
    while let [high, low, behind @ ..] = rest {
        let byte = hex_digit(*high) * 16 + hex_digit(*low);
        if bytes.push(byte as u8).is_err() {
            return Err(LoadEnd::NoMemory);
        }
        rest = behind;
    }
    Ok(bytes)
}

fn pdu_in(alloc: Global, place: Place, word: &[u8]) -> Result<Pdu, LoadEnd>
    ensures { Gives (λ pdu. pdu) result (pdu_in place word.now) }
{
    let refused = LoadEnd::Refused(PlantFault::BadValue, place);
    if !are_hex_digits(word) || word.len() % 2 != 0 {
        return Err(refused);
    }
    let bytes = hex_pairs(alloc, word)?;
    match Pdu::of(alloc, bytes.as_slice())? {
        Some(pdu) => Ok(pdu),
        None => Err(refused),
    }
}

#[tactic(auto, unfolding(crate::specs::Requests::host_request))]
fn host_request(
    alloc: Global,
    version: Version,
    node: u8,
    place: Place,
    text: &str,
) -> Result<HostAsk, LoadEnd>
    ensures { Gives (λ ask. ask) result (host_request version node place text.now) }
{
    let bad_value = LoadEnd::Refused(PlantFault::BadValue, place);
    let Some(words) = request_words(text.as_bytes()) else {
        return Err(bad_value);
    };
    let Some(hold) = numeral_within(1, DUE_LIMIT, words.hold) else {
        return Err(bad_value);
    };
    if !is_route(version, words.route) {
        return Err(bad_value);
    }
    let pdu = pdu_in(alloc, place, words.pdu)?;
    let Some(route) = route_from(node, words.route) else {
        return Err(LoadEnd::Refused(PlantFault::BadNode, place));
    };
    Ok(HostAsk { hold, route, pdu })
}

/// The requests of the host of a node at a position.
pub fn requests_of(
    alloc: Global,
    version: Version,
    node: u8,
    host: u32,
    texts: &[&str],
) -> Result<List<HostAsk>, LoadEnd>
    requires { length texts.now ≤ REQUEST_LIMIT }
    ensures { Gives (λ asks. asks) result (requests_of version node host (texts_in texts.now)) }
{
    let mut asks = List::new(alloc);
    let mut number = 0;
    for text in texts {
        number += 1;
        let place = request_place(host, number);
        let ask = host_request(alloc, version, node, place, text)?;
        asks.push(ask)?;
    }
    Ok(asks)
}
