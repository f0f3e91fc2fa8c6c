//! Whether what a station answered has a reply.
ghost use Rattle.std.specs.Prelude.{◌≡◌, ◌++◌, ◌∷◌, [], IfOk, OnOk};
ghost use Rattle.joint_history.specs.Reading.{host_items_of, items_of};
ghost use Rattle.list_courses.specs.Completing.{given_if, given_in};
ghost use Rattle.station_laws.specs.Readings.{answer_in, host_answer_in};

use controller_core::Entry;
use host_port::HostEntry;
use std::alloc::{AllocError, Global};
use std::collections::VecDeque;

/// Whether each answer of a station has a reply, in their order: one to a request that came without
/// power has none.
pub type Given = VecDeque<bool>;

fn push(list: &mut Given, given: bool) -> Result<(), AllocError>
    ensures { OnOk result (list.new.items ≡ list.old.items ++ given ∷ []) }
{
    match list.push_back(given) {
        Ok(()) => Ok(()),
        Err(_) => Err(AllocError),
    }
}

fn add_answer(list: &mut Given, entry: &Entry) -> Result<(), AllocError>
    ensures { OnOk result (list.new.items ≡ list.old.items ++ given_if (answer_in entry.now)) }
{
    match entry {
        Entry::Peer { .. } => push(list, true),
        Entry::Off { .. } => push(list, false),
        _ => Ok(()),
    }
}

/// Whether each answer of a controller has a reply.
pub fn answers_given(alloc: Global, entries: &[Entry]) -> Result<Given, AllocError>
    ensures { IfOk result (λ list. list.items ≡ given_in (items_of entries.now).answers) }
{
    let mut list = VecDeque::new(alloc);
    for entry in entries {
        add_answer(&mut list, entry)?;
    }
    Ok(list)
}

fn add_host_answer(list: &mut Given, entry: &HostEntry) -> Result<(), AllocError>
    ensures { OnOk result (list.new.items ≡ list.old.items ++ given_if (host_answer_in entry.now)) }
{
    match entry {
        HostEntry::Served { .. } => push(list, true),
        _ => Ok(()),
    }
}

/// Whether each answer of a host has a reply: all have.
pub fn host_answers_given(alloc: Global, entries: &[HostEntry]) -> Result<Given, AllocError>
    ensures { IfOk result (λ list. list.items ≡ given_in (host_items_of entries.now).answers) }
{
    let mut list = VecDeque::new(alloc);
    for entry in entries {
        add_host_answer(&mut list, entry)?;
    }
    Ok(list)
}
