//! The lines of hosts.
ghost use Rattle.std.specs.Prelude.{◌≡◌, ◌+◌, ◌^◌, ◌<◌, [], ◌∷◌, ◌++◌, length, IfOk, OnOk};
ghost use Rattle.std.specs.Prelude.{option_copied, string_bytes};
ghost use Rattle.plant_types.specs.declared.net.HostPlan.{HostPlan as AnyHostPlan};
ghost use Rattle.host_port.specs.Legal.{IsHostHistory};
ghost use Rattle.host_port.specs.Calls.{requests_in};
ghost use Rattle.panel_text.specs.Hosts.{ask_line, entry_lines, host_lines, host_result_text};
ghost use Rattle.panel_text.specs.Hosts.{result_in};

use host_port::{HostEntry, HostResult, asks_have_new_names};
use mstr_block::CallId;
use std::alloc::{AllocError, Global};
use std::fmt::Write;

/// What a call came to, by some entries.
fn result_in<'a>(entries: &'a [HostEntry], id: CallId) -> Option<&'a HostResult>
    ensures { option_copied result ≡ result_in entries.now id }
{
    for entry in entries {
        match entry {
            HostEntry::Answer { id: other, result } if id == *other => return Some(result),
            _ => {}
        }
    }
    None
}

fn host_result_text(alloc: Global, outcome: &HostResult) -> Result<String, AllocError>
    ensures { IfOk result (λ text. string_bytes text ≡ host_result_text outcome.now) }
{
    match outcome {
        HostResult::Reply(pdu) => hex::encode(alloc, pdu.bytes()),
        HostResult::Bad(word) => {
            let word = hex::encode(alloc, word.to_be_bytes())?;
            format!(in alloc; "ERR {word}")
        }
    }
}

/// Adds the line of a request that came to something.
fn push_ask(
    alloc: Global,
    text: &mut String,
    node: u8,
    number: usize,
    outcome: Option<&HostResult>,
) -> Result<(), AllocError>
    ensures { OnOk result (string_bytes text.new ≡ string_bytes text.old
        ++ ask_line node number (option_copied outcome.entry)) }
{
    let Some(outcome) = outcome else {
        return Ok(());
    };
    let told = host_result_text(alloc, outcome)?;
    write!(text, "H {node} {number} {told}\n")
}

/// Adds the line of an entry, if it is a request, and answers how many requests there are with it.
/// What it came to is told by the entries after it.
fn push_entry(
    alloc: Global,
    text: &mut String,
    node: u8,
    number: usize,
    entry: &HostEntry,
    behind: &[HostEntry],
) -> Result<usize, AllocError>
    requires { number < 2 ^ 63 }
    ensures number { IfOk result (λ after.
        after ≡ number + length (requests_in (entry.now ∷ []))) }
    ensures text { OnOk result (string_bytes text.new ≡ string_bytes text.old
        ++ entry_lines node number behind.now entry.now) }
{
    match entry {
        HostEntry::Ask { id, .. } => {
            push_ask(alloc, text, node, number + 1, result_in(behind, *id))?;
            Ok(number + 1)
        }
        HostEntry::Answer { .. } | HostEntry::Served { .. } => Ok(number),
    }
}

/// Adds the lines of a host: one of each request that came to something, in the order in which they
/// were made. The only error is that memory ran out.
pub fn push_host(
    alloc: Global,
    text: &mut String,
    node: u8,
    entries: &[HostEntry],
) -> Result<(), AllocError>
    requires { (plan : AnyHostPlan) × IsHostHistory plan entries.now }
    ensures { OnOk result (string_bytes text.new ≡ string_bytes text.old
        ++ host_lines node entries.now) }
{
    asks_have_new_names();
    let mut number = 0;
    for (at, entry) in entries.iter().enumerate() {
        number = push_entry(alloc, text, node, number, entry, &entries[at + 1..])?;
    }
    Ok(())
}
