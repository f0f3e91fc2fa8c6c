//! What the from drop of a wire sends, and the rows that are made of it, with ample memory.
ghost use Rattle.std.specs.Prelude.{◌≤◌};
ghost use Rattle.plant_types.specs.Limits.{drop_words};
ghost use Rattle.traffic_cop.specs.Exchange.{input_total};

use controller_core::Entry;
use peer_cop::Wire;
use plant_types::{Block, ControllerPlan, IoDrop, List, OrderRow, ScriptRow, Words};
use ring_core::{LeaveCause, RingEntry};
use std::alloc::{AllocError, Global};
use std::process::Abort;
use word_exchange::{Sending, Source, WireReader, own_row, row_made};

/// The wire of the line `5 1 1 2 1 1 1`.
const WIRE: Wire = Wire {
    node: 5,
    drop: 1,
    word: 1,
    from: 2,
    from_drop: 1,
    from_word: 1,
    count: 1,
};

/// Controller 2, whose only row writes drop 1.
fn plan_of(alloc: Global) -> Result<ControllerPlan, AllocError> {
    let mut orders = List::new(alloc);
    orders.push(OrderRow {
        segment: 1,
        control: None,
        input: None,
        output: Some(1),
    })?;
    Ok(ControllerPlan {
        node: 2,
        network: 0,
        coils: 16,
        inputs: 0,
        input_registers: 0,
        registers: 0,
        panel: List::new(alloc),
        orders,
        power: List::new(alloc),
        drops: List::new(alloc),
        segments: List::new(alloc),
    })
}

/// The reader of a wire whose from drop sends these words.
fn reader_of<'a>(
    alloc: Global,
    plan: &'a ControllerPlan,
    words: &[u16],
) -> Result<WireReader<'a>, AllocError> {
    Ok(WireReader {
        plan,
        sending: Sending {
            wire: WIRE,
            latest: Words::of(alloc, words)?,
            sent: Words::of(alloc, words)?,
        },
        entries: 0,
        ring: 0,
    })
}

/// The source of a word of the one reader.
const fn word_at(place: usize) -> Option<Source> {
    Some(Source { reader: 0, place })
}

/// What the sources of a drop bring to its own row of these words; nothing to a silent row.
fn brought(
    alloc: Global,
    readers: &[WireReader<'_>],
    sources: &[Option<Source>],
    own: &[u16],
) -> Result<Vec<u16>, AllocError> {
    let own = ScriptRow::Row(Words::of(alloc, own)?);
    match &row_made(alloc, readers, sources, &own)? {
        ScriptRow::Silent => Ok(Vec::new(alloc)),
        ScriptRow::Row(words) => Vec::from_slice(alloc, words.words()),
    }
}

/// What a repetition adds: an Output of row 1 with a word, or none; and that a node passes the
/// token, or leaves. Then the word that the drop sends.
struct Step {
    output: Option<u16>,
    node: u8,
    passes: bool,
    sends: u16,
}

/// The word that a drop sends at first, and what is added.
const COURSES: [(u16, &'static [Step]); 2] = [
    // A word comes a repetition later.
    (
        0,
        &[
            Step {
                output: Some(1),
                node: 2,
                passes: true,
                sends: 1,
            },
            Step {
                output: Some(0),
                node: 2,
                passes: true,
                sends: 0,
            },
        ],
    ),
    // A node that is away sends what it sent.
    (
        3,
        &[
            Step {
                output: Some(4),
                node: 5,
                passes: true,
                sends: 3,
            },
            Step {
                output: None,
                node: 2,
                passes: false,
                sends: 3,
            },
            Step {
                output: None,
                node: 2,
                passes: true,
                sends: 4,
            },
        ],
    ),
];

fn outputs_in(alloc: Global, step: &Step) -> Result<Vec<Entry>, AllocError> {
    let mut entries = Vec::new(alloc);
    if let Some(word) = step.output {
        entries.push(Entry::Output {
            row: 1,
            words: Block::of(&[word]),
        })?;
    }
    Ok(entries)
}

fn noted_in(alloc: Global, step: &Step) -> Result<RingEntry, AllocError> {
    let node = step.node;
    if !step.passes {
        let cause = LeaveCause::Down(1);
        return Ok(RingEntry::Leave { node, cause });
    }
    let words = Words::of(alloc, &[])?;
    Ok(RingEntry::Pass {
        node,
        done: false,
        words,
    })
}

/// The drop sends this word, which comes to a wired word, and to no other.
fn sends(
    rt: &impl Abort,
    alloc: Global,
    readers: &[WireReader<'_>],
    word: u16,
) -> Result<(), AllocError> {
    let wired = brought(alloc, readers, &[word_at(0)], &[9])?;
    assert!(rt; wired.as_slice() == [word].as_slice());
    let other = brought(alloc, readers, &[None], &[9])?;
    assert!(rt; other.as_slice() == [9].as_slice());
    Ok(())
}

/// Each step of a course leaves the word that it says.
fn goes(rt: &impl Abort, alloc: Global, first: u16, steps: &[Step]) -> Result<(), AllocError> {
    let plan = plan_of(alloc)?;
    let mut readers = [reader_of(alloc, &plan, &[first])?];
    sends(rt, alloc, &readers, first)?;
    for step in steps {
        let entries = outputs_in(alloc, step)?;
        let ring = [noted_in(alloc, step)?];
        readers[0]
            .sending
            .refresh(alloc, &plan, entries.as_slice(), &ring)?;
        sends(rt, alloc, &readers, step.sends)?;
    }
    Ok(())
}

#[test]
fn words_are_sent_at_the_pass(rt: HostRuntime) -> Result<(), AllocError> {
    for (first, steps) in COURSES {
        goes(&rt, rt.alloc(), first, steps)?;
    }
    Ok(())
}

#[test]
fn a_range_reaches_its_own_words(rt: HostRuntime) -> Result<(), AllocError> {
    let alloc = rt.alloc();
    let plan = plan_of(alloc)?;
    let readers = [reader_of(alloc, &plan, &[10, 20, 30, 40])?];
    let sources = [None, word_at(2), word_at(3), None];
    let row = brought(alloc, &readers, &sources, &[1, 2, 3, 4])?;
    assert!(rt; row.as_slice() == [1, 30, 40, 4].as_slice());
    let silent = row_made(alloc, &readers, &[], &ScriptRow::Silent)?;
    assert!(rt; matches!(&silent, ScriptRow::Silent));
    Ok(())
}

/// Whether a drop's own row at an exchange is silent.
fn is_silent(alloc: Global, drop: &IoDrop, exchange: u128) -> Result<bool, AllocError>
    requires { input_total drop.now.modules ≤ drop_words }
{
    let row = own_row(alloc, drop, exchange)?;
    Ok(matches!(&row, ScriptRow::Silent))
}

#[test]
fn a_short_script_goes_on_with_its_last_row(rt: HostRuntime) -> Result<(), AllocError> {
    let alloc = rt.alloc();
    let mut drop = IoDrop {
        number: 1,
        modules: List::new(alloc),
        script: List::new(alloc),
    };
    assert!(rt; !is_silent(alloc, &drop, 1)?);
    drop.script.push(ScriptRow::Row(Words::of(alloc, &[])?))?;
    drop.script.push(ScriptRow::Silent)?;
    assert!(rt; !is_silent(alloc, &drop, 1)?);
    assert!(rt; is_silent(alloc, &drop, 2)?);
    assert!(rt; is_silent(alloc, &drop, 7)?);
    Ok(())
}
