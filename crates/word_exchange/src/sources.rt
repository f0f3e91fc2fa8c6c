//! Where the input words of wired drops come from.
ghost use Rattle.std.specs.Prelude.{◌≡◌, ◌≤◌, ◌<◌, ◌+◌, IfOk, OnOk, filter, length, option_map};
ghost use Rattle.std.specs.List.{find, list_any, position};
ghost use Rattle.std.specs.Option.{unwrap_or};
ghost use Rattle.word_exchange.specs.Rows.{ends_at, feeds};
ghost use Rattle.word_exchange.specs.Sources.{is_from, source_by, source_due, sources_due};
ghost use Rattle.word_exchange.specs.Sources.{with_from, AreFroms};

use peer_cop::Wire;
use std::alloc::{AllocError, Global};

/// Where an input word of a wired drop comes from: the place of its from drop among the readers,
/// and that of the word among those that the drop sends. Both are counted from 0.
#[derive(Clone, Copy)]
pub struct Source {
    pub reader: usize,
    pub place: usize,
}

/// Whether a wire ends at a drop of a node.
fn ends_at(node: u8, drop: u8, wire: Wire) -> bool
    ensures { result ≡ ends_at node drop wire }
{
    wire.node == node && wire.drop == drop
}

/// Whether a wire feeds an input word of a drop of a node.
fn feeds(node: u8, drop: u8, word: usize, wire: Wire) -> bool
    ensures { result ≡ feeds node drop word wire }
{
    let first = usize::from(wire.word);
    ends_at(node, drop, wire) && first <= word && word < first + usize::from(wire.count)
}

/// Whether two wires come from the same drop.
fn is_from(wire: Wire, other: Wire) -> bool
    ensures { result ≡ is_from wire other }
{
    other.from == wire.from && other.from_drop == wire.from_drop
}

/// The place among wires of the first one that comes from the drop of a wire.
fn position_of(froms: &[Wire], wire: Wire) -> Option<usize>
    ensures { result ≡ position (is_from wire) froms.now }
{
    froms.iter().position(|from| is_from(wire, *from))
}

/// The place among wires of the first one that comes from the drop of a wire; behind them where
/// there is none.
fn place_of(froms: &[Wire], wire: Wire) -> usize
    ensures { result ≡ unwrap_or (position (is_from wire) froms.now) (length froms.now) }
{
    match position_of(froms, wire) {
        Some(place) => place,
        None => froms.len(),
    }
}

/// Whether one of these wires comes from the from drop of a wire.
fn has_from(froms: &[Wire], wire: Wire) -> bool
    ensures { result ≡ list_any (is_from wire) froms.now }
{
    froms.iter().any(|from| is_from(wire, *from))
}

/// Adds a wire, unless one is there from its from drop.
fn add_from(froms: &mut Vec<Wire>, wire: Wire) -> Result<(), AllocError>
    ensures { OnOk result (froms.new.items ≡ with_from froms.old.items wire) }
{
    if has_from(froms.as_slice(), wire) {
        return Ok(());
    }
    froms.push(wire)?;
    Ok(())
}

/// A wire from each drop from which wires come: the first one.
pub(crate) fn froms_of(alloc: Global, wires: &[Wire]) -> Result<Vec<Wire>, AllocError>
    ensures { IfOk result (λ froms. AreFroms wires.now froms.items) }
{
    let mut froms: Vec<Wire> = Vec::new(alloc);
    for wire in wires {
        add_from(&mut froms, *wire)?;
    }
    Ok(froms)
}

/// The wires that end at a drop of a node.
fn wires_to(alloc: Global, wires: &[Wire], node: u8, drop: u8) -> Result<Vec<Wire>, AllocError>
    ensures { IfOk result (λ own. own.items ≡ filter (ends_at node drop) wires.now) }
{
    let mut own = Vec::new(alloc);
    for wire in wires {
        if ends_at(node, drop, *wire) {
            own.push(*wire)?;
        }
    }
    Ok(own)
}

/// The first wire that feeds an input word of a drop of a node.
fn feeding(wires: &[Wire], node: u8, drop: u8, word: usize) -> Option<&Wire>
    ensures { option_map (λ wire. wire.now) result ≡ find (feeds node drop word) wires.now }
{
    wires.iter().find(|wire| feeds(node, drop, word, **wire))
}

/// The source of a word that a wire brings to a word of its drop.
fn source_by(froms: &[Wire], word: usize, wire: Wire) -> Source
    requires from { wire.word ≤ word }
    requires to { word < wire.word + wire.count }
    ensures { result ≡ source_by froms.now word wire }
{
    let further = word - usize::from(wire.word);
    Source {
        reader: place_of(froms, wire),
        place: (usize::from(wire.from_word) + further).saturating_sub(1),
    }
}

/// The source of an input word of a drop of a node.
fn source_due(froms: &[Wire], wires: &[Wire], node: u8, drop: u8, word: usize) -> Option<Source>
    ensures { result ≡ source_due froms.now wires.now node drop word }
{
    match feeding(wires, node, drop, word) {
        Some(wire) => Some(source_by(froms, word, *wire)),
        None => None,
    }
}

/// The sources of the input words of a drop of a node, which has so many.
pub(crate) fn sources_of(
    alloc: Global,
    froms: &[Wire],
    wires: &[Wire],
    node: u8,
    drop: u8,
    total: usize,
) -> Result<Vec<Option<Source>>, AllocError>
    ensures { IfOk result
        (λ sources. sources.items ≡ sources_due froms.now wires.now node drop total) }
{
    let own = wires_to(alloc, wires, node, drop)?;
    let mut sources = Vec::new(alloc);
    for before in 0..total {
        sources.push(source_due(froms, own.as_slice(), node, drop, before + 1))?;
    }
    Ok(sources)
}
