//! A journal read back.
ghost use Rattle.std.specs.Prelude.{◌≡◌, ◌-◌, ◌^◌, min, IfErr, IfOk};
ghost use Rattle.joint_history.specs.declared.joint.Joint.{Joint as History};
ghost use Rattle.journal_text.specs.Fronts.{GivesJoint, IsFault, IsJournalOf};
ghost use Rattle.journal_text.specs.Drafts.{ReadsAt, ending, step};

use crate::draft::{Draft, step};
use crate::fault::JournalFault;
use joint_history::Joint;
use journal_reading::{LineFault, parted};
use std::alloc::Global;

/// The number of a line as a fault tells it.
fn told(number: usize) -> u32
    ensures { result ≡ min number (2 ^ 32 - 1) }
{
    number.min(u32::MAX as usize) as u32
}

fn take_line(alloc: Global, draft: Draft, line: &[u8], number: usize) -> Result<Draft, JournalFault>
    ensures { ReadsAt number result (step draft line.now) }
{
    match step(alloc, draft, line) {
        Ok(draft) => Ok(draft),
        Err(LineFault::Wrong) => Err(JournalFault::Text(told(number))),
        Err(LineFault::NoMemory) => Err(JournalFault::NoMemory),
    }
}

/// What is read where the bytes end, in a line of this number.
fn ending(draft: Draft, rest: &[u8], number: usize) -> Result<Joint, JournalFault>
    ensures { ReadsAt number result (ending draft rest.now) }
{
    match draft {
        Draft::End(joint) => {
            if rest.is_empty() {
                Ok(joint)
            } else {
                Err(JournalFault::Text(told(number)))
            }
        }
        _ => Err(JournalFault::Text(told(number))),
    }
}

/// The joint history whose journal the bytes are. Reads each line once.
pub fn read_journal(alloc: Global, bytes: &[u8]) -> Result<Joint, JournalFault>
    ensures told { IfOk result (λ joint. IsJournalOf joint bytes.now) }
    ensures all { (joint : History) → IsJournalOf joint bytes.now → GivesJoint joint result }
    ensures fault { IfErr result (λ fault. IsFault bytes.now fault) }
{
    let mut draft = Draft::Start;
    let mut rest = bytes;
    let mut number = 1usize;
    loop {
        match parted(rest, b'\n') {
            Some((line, behind)) => {
                draft = take_line(alloc, draft, line, number)?;
                rest = behind;
                number += 1;
            }
            None => return ending(draft, rest, number),
        }
    }
}
