//! The text of the summary.
ghost use Rattle.std.specs.Prelude.{◌≡◌, ◌++◌, IfOk, OnOk, map, string_bytes};
ghost use Rattle.std.specs.List.{flat_map};
ghost use Rattle.plant_types.specs.declared.plan.Plant.{Plant as AnyPlant};
ghost use Rattle.summary_text.specs.Coils.{coils_at_end};
ghost use Rattle.summary_text.specs.Summary.{count_line, summary};

use crate::counts::{Counted, entries_that, passes_of};
use joint_history::Joint;
use std::alloc::{AllocError, Global};
use std::fmt::Write;

/// Adds a line for each count.
fn push_counts(text: &mut String, counts: &[(&str, u128)]) -> Result<(), AllocError>
    ensures { OnOk result (string_bytes text.new ≡ string_bytes text.old
        ++ flat_map count_line (map (λ count. (count.0.now, count.1)) counts.now)) }
{
    for (name, count) in counts {
        write!(text, "{name} {count}\n")?;
    }
    Ok(())
}

/// The summary of a plant by what its stations noted, in seven lines: how many controllers it has,
/// the segments that they solved, the requests that they answered, the calls of theirs that ended
/// well and badly, how often the tokens of its rings were passed on, and how many coils are on at
/// the end, which the caller counted.
pub fn summary_text(alloc: Global, joint: &Joint, coils: u128) -> Result<Vec<u8>, AllocError>
    ensures { IfOk result (λ text. (plant : AnyPlant) → coils ≡ coils_at_end plant joint.now
        → text.items ≡ summary plant joint.now) }
{
    let logs = joint.controllers.as_slice();
    let counts = [
        ("controllers", logs.len() as u128),
        ("solves", entries_that(Counted::Solves, logs)),
        ("peers", entries_that(Counted::Peers, logs)),
        ("good", entries_that(Counted::Good, logs)),
        ("bad", entries_that(Counted::Bad, logs)),
        ("passes", passes_of(joint.rings.as_slice())),
        ("coils", coils),
    ];
    let mut text = String::new(alloc);
    push_counts(&mut text, &counts)?;
    Ok(text.into_bytes())
}
