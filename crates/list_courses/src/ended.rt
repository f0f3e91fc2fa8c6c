//! Whether each call of a station has ended, once.
ghost use Rattle.std.specs.Prelude.{◌≡◌, ◌↔◌, ◌++◌, [], true, Some, All, IfOk, IsTrue, OnOk, map};
ghost use Rattle.std.specs.List.{cons_option};
ghost use Rattle.joint_history.specs.Bridges.{side_items};
ghost use Rattle.joint_history.specs.Complete.{EndsEachCall};
ghost use Rattle.joint_history.specs.Reading.{called_of, host_items_of, items_of};
ghost use Rattle.list_courses.specs.Ends.{CountsEnds, EndsOnce, NotesEnd, end_id_in};
ghost use Rattle.list_courses.specs.Ends.{host_end_id_in, id_of_call, id_of_end, side_end_id_in};
ghost use Rattle.station_laws.specs.Named.{value_of_call};
ghost use Rattle.station_laws.specs.Readings.{calls_in, host_calls_in, side_calls_in};

use bridge_relay::BridgeEntry;
use controller_core::{Call, Entry};
use host_port::HostEntry;
use mstr_block::CallId;
use station_laws::ByCall;
use std::alloc::{AllocError, Global};

/// Notes an end: of a call whether it is its only one.
fn note_end(once: &mut ByCall<bool>, id: CallId) -> Result<(), AllocError>
    ensures { OnOk result (NotesEnd once.old id once.new) }
{
    let is_first = once.get(id).is_none();
    once.put(id, is_first)
}

fn count_ends(alloc: Global, ends: &[CallId]) -> Result<ByCall<bool>, AllocError>
    ensures { IfOk result (CountsEnds ends.now) }
{
    let mut once = ByCall::new(alloc);
    for id in ends {
        note_end(&mut once, *id)?;
    }
    Ok(once)
}

fn has_ended(once: &ByCall<bool>, id: CallId) -> bool
    ensures { IsTrue result ↔ (value_of_call once.now id ≡ Some true) }
{
    match once.get(id) {
        None => false,
        Some(is_only) => *is_only,
    }
}

/// Whether each of these calls has one of these ends.
fn each_ended(alloc: Global, calls: &[CallId], ends: &[CallId]) -> Result<bool, AllocError>
    ensures { IfOk result (λ each. IsTrue each ↔ All (EndsOnce ends.now) calls.now) }
{
    let once = count_ends(alloc, ends)?;
    for id in calls {
        if !has_ended(&once, *id) {
            return Ok(false);
        }
    }
    Ok(true)
}

fn add_calls(list: &mut Vec<CallId>, calls: &[Call]) -> Result<(), AllocError>
    ensures { OnOk result
        (list.new.items ≡ list.old.items ++ map id_of_call (map called_of calls.now)) }
{
    for call in calls {
        list.push(call.id)?;
    }
    Ok(())
}

fn add_call_ids(list: &mut Vec<CallId>, entry: &Entry) -> Result<(), AllocError>
    ensures { OnOk result
        (list.new.items ≡ list.old.items ++ map id_of_call (calls_in entry.now)) }
{
    match entry {
        Entry::Collect(calls) => add_calls(list, calls.as_slice()),
        _ => Ok(()),
    }
}

fn call_ids(alloc: Global, entries: &[Entry]) -> Result<Vec<CallId>, AllocError>
    ensures { IfOk result (λ list. list.items ≡ map id_of_call (items_of entries.now).calls) }
{
    let mut list = Vec::new(alloc);
    for entry in entries {
        add_call_ids(&mut list, entry)?;
    }
    Ok(list)
}

fn add_end_id(list: &mut Vec<CallId>, entry: &Entry) -> Result<(), AllocError>
    ensures { OnOk result
        (list.new.items ≡ list.old.items ++ cons_option (end_id_in entry.now) []) }
{
    if let Entry::Finish { id, .. } = entry {
        list.push(*id)?;
    }
    Ok(())
}

fn end_ids(alloc: Global, entries: &[Entry]) -> Result<Vec<CallId>, AllocError>
    ensures { IfOk result (λ list. list.items ≡ map id_of_end (items_of entries.now).ends) }
{
    let mut list = Vec::new(alloc);
    for entry in entries {
        add_end_id(&mut list, entry)?;
    }
    Ok(list)
}

/// Whether each call of a controller has ended, once.
pub(crate) fn ends_each_call(alloc: Global, entries: &[Entry]) -> Result<bool, AllocError>
    ensures { IfOk result (λ each. IsTrue each ↔ EndsEachCall (items_of entries.now)) }
{
    let calls = call_ids(alloc, entries)?;
    let ends = end_ids(alloc, entries)?;
    each_ended(alloc, calls.as_slice(), ends.as_slice())
}

fn add_host_call_id(list: &mut Vec<CallId>, entry: &HostEntry) -> Result<(), AllocError>
    ensures { OnOk result (list.new.items
        ≡ list.old.items ++ map id_of_call (host_calls_in entry.now)) }
{
    if let HostEntry::Ask { id, .. } = entry {
        list.push(*id)?;
    }
    Ok(())
}

fn host_call_ids(alloc: Global, entries: &[HostEntry]) -> Result<Vec<CallId>, AllocError>
    ensures { IfOk result
        (λ list. list.items ≡ map id_of_call (host_items_of entries.now).calls) }
{
    let mut list = Vec::new(alloc);
    for entry in entries {
        add_host_call_id(&mut list, entry)?;
    }
    Ok(list)
}

fn add_host_end_id(list: &mut Vec<CallId>, entry: &HostEntry) -> Result<(), AllocError>
    ensures { OnOk result
        (list.new.items ≡ list.old.items ++ cons_option (host_end_id_in entry.now) []) }
{
    if let HostEntry::Answer { id, .. } = entry {
        list.push(*id)?;
    }
    Ok(())
}

fn host_end_ids(alloc: Global, entries: &[HostEntry]) -> Result<Vec<CallId>, AllocError>
    ensures { IfOk result
        (λ list. list.items ≡ map id_of_end (host_items_of entries.now).ends) }
{
    let mut list = Vec::new(alloc);
    for entry in entries {
        add_host_end_id(&mut list, entry)?;
    }
    Ok(list)
}

/// Whether each call of a host has ended, once.
pub(crate) fn host_ends_each_call(alloc: Global, entries: &[HostEntry]) -> Result<bool, AllocError>
    ensures { IfOk result (λ each. IsTrue each ↔ EndsEachCall (host_items_of entries.now)) }
{
    let calls = host_call_ids(alloc, entries)?;
    let ends = host_end_ids(alloc, entries)?;
    each_ended(alloc, calls.as_slice(), ends.as_slice())
}

fn add_side_call_id(list: &mut Vec<CallId>, side: u8, entry: &BridgeEntry) -> Result<(), AllocError>
    ensures { OnOk result (list.new.items
        ≡ list.old.items ++ map id_of_call (side_calls_in side entry.now)) }
{
    let BridgeEntry::Forward { side: near, id, .. } = entry else {
        return Ok(());
    };
    if *near == side {
        list.push(*id)?;
    }
    Ok(())
}

fn side_call_ids(
    alloc: Global,
    side: u8,
    entries: &[BridgeEntry],
) -> Result<Vec<CallId>, AllocError>
    ensures { IfOk result
        (λ list. list.items ≡ map id_of_call (side_items side entries.now).calls) }
{
    let mut list = Vec::new(alloc);
    for entry in entries {
        add_side_call_id(&mut list, side, entry)?;
    }
    Ok(list)
}

fn add_side_end_id(list: &mut Vec<CallId>, side: u8, entry: &BridgeEntry) -> Result<(), AllocError>
    ensures { OnOk result (list.new.items
        ≡ list.old.items ++ cons_option (side_end_id_in side entry.now) []) }
{
    let BridgeEntry::Finish { side: near, id, .. } = entry else {
        return Ok(());
    };
    if *near == side {
        list.push(*id)?;
    }
    Ok(())
}

fn side_end_ids(alloc: Global, side: u8, entries: &[BridgeEntry]) -> Result<Vec<CallId>, AllocError>
    ensures { IfOk result
        (λ list. list.items ≡ map id_of_end (side_items side entries.now).ends) }
{
    let mut list = Vec::new(alloc);
    for entry in entries {
        add_side_end_id(&mut list, side, entry)?;
    }
    Ok(list)
}

/// Whether each call that an end of a bridge sent on has ended, once.
pub fn side_ends_each_call(
    alloc: Global,
    side: u8,
    entries: &[BridgeEntry],
) -> Result<bool, AllocError>
    ensures { IfOk result (λ each. IsTrue each ↔ EndsEachCall (side_items side entries.now)) }
{
    let calls = side_call_ids(alloc, side, entries)?;
    let ends = side_end_ids(alloc, side, entries)?;
    each_ended(alloc, calls.as_slice(), ends.as_slice())
}
