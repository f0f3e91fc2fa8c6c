//! The script rows of a drop whose input words are wired.
ghost use Rattle.std.specs.Prelude.{◌≡◌, ◌≤◌, ◌-◌, min, IfOk, map, slice_get};
ghost use Rattle.std.specs.List.{enumerate_from};
ghost use Rattle.plant_types.specs.Limits.{drop_words};
ghost use Rattle.traffic_cop.specs.Exchange.{input_total};
ghost use Rattle.word_exchange.specs.Rows.{own_row};
ghost use Rattle.word_exchange.specs.Sources.{row_brought, source_of, word_brought, word_in};

use crate::running::WireReader;
use crate::sources::Source;
use plant_types::{Copied, IoDrop, ScriptRow, Words};
use std::alloc::{AllocError, Global};
use traffic_cop::input_total;

/// The word that a source brings; 0 where its from drop sends none there.
fn word_in(readers: &[WireReader<'_>], source: Source) -> u16
    ensures { result ≡ word_in (slice_get readers.now source.reader) source.place }
{
    match readers.get(source.reader) {
        Some(reader) => match reader.sending.sent.words().get(source.place) {
            Some(word) => *word,
            None => 0,
        },
        None => 0,
    }
}

/// The source of an input word of a drop, counted from 1.
fn source_of(sources: &[Option<Source>], word: usize) -> Option<Source>
    ensures { result ≡ source_of sources.now word }
{
    match sources.get(word.saturating_sub(1)) {
        Some(source) => *source,
        None => None,
    }
}

/// An input word of a drop, counted from 1: the word that its source brings, or its own.
fn word_made(readers: &[WireReader<'_>], sources: &[Option<Source>], word: usize, own: u16) -> u16
    ensures { result ≡ word_brought readers.now sources.now (word, own) }
{
    match source_of(sources, word) {
        Some(source) => word_in(readers, source),
        None => own,
    }
}

/// The input words of a drop: those that its sources bring, and its own.
fn words_made(
    alloc: Global,
    readers: &[WireReader<'_>],
    sources: &[Option<Source>],
    own: &[u16],
) -> Result<Words, AllocError>
    ensures { IfOk result
        (λ made. made ≡ map (word_brought readers.now sources.now) (enumerate_from 1 own.now)) }
{
    let mut words = Vec::new(alloc);
    for (at, word) in own.iter().enumerate() {
        words.push(word_made(readers, sources, at + 1, *word))?;
    }
    Words::of(alloc, words.as_slice())
}

/// The row of a wired drop: its own, with the words that its sources bring. A silent row stays
/// silent. The only error is that memory ran out. This project's own.
pub fn row_made(
    alloc: Global,
    readers: &[WireReader<'_>],
    sources: &[Option<Source>],
    own: &ScriptRow,
) -> Result<ScriptRow, AllocError>
    ensures { IfOk result (λ row. row ≡ row_brought readers.now sources.now own.now) }
{
    match own {
        ScriptRow::Silent => Ok(ScriptRow::Silent),
        ScriptRow::Row(words) => {
            let words = words_made(alloc, readers, sources, words.words())?;
            Ok(ScriptRow::Row(words))
        }
    }
}

/// The place, counted from 0, of the row of a script of so many rows at an exchange.
fn row_of(rows: usize, exchange: u128) -> usize
    ensures { result ≡ min exchange rows - 1 }
{
    exchange.min(rows as u128).saturating_sub(1) as usize
}

/// The row of a drop's own script at an exchange, counted from 1, or its last; zeros where the
/// script is empty. The only error is that memory ran out. This project's own.
pub fn own_row(alloc: Global, drop: &IoDrop, exchange: u128) -> Result<ScriptRow, AllocError>
    requires { input_total drop.now.modules ≤ drop_words }
    ensures { IfOk result (λ row. row ≡ own_row drop.now exchange) }
{
    let script = drop.script.as_slice();
    match script.get(row_of(script.len(), exchange)) {
        Some(row) => row.copied(alloc),
        None => {
            let zeros = vec![in alloc; 0; input_total(drop.modules.as_slice())]?;
            Ok(ScriptRow::Row(Words::of(alloc, zeros.as_slice())?))
        }
    }
}
