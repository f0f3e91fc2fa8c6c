//! The laws at one station, and at one end of a bridge.
ghost use Rattle.std.specs.Prelude.{[], IfOk};
ghost use Rattle.tied_lists.specs.Items.{ABridge, AController, AHost, asked_by, downs_by};
ghost use Rattle.tied_lists.specs.Items.{ended_by};
ghost use Rattle.joint_history.specs.Bridges.{backs_of, side_items};
ghost use Rattle.joint_history.specs.Reading.{host_items_of, items_of};
ghost use Rattle.station_laws.specs.Failing.{GoUpTo};
ghost use Rattle.station_laws.specs.Comparing.{Compared, ComparesAnswers, ComparesReplies};
ghost use Rattle.station_laws.specs.Comparing.{IsLawEnd};
ghost use Rattle.station_laws.specs.Kinds.{station_of};
ghost use Rattle.station_laws.specs.Picked.{AreWithin, picked};

use crate::answering::{
    Served, add_port_answers, answered, host_answered, side_answered, taken_in_order,
};
use crate::asking::{Asking, asked, called, host_called, side_called};
use crate::backs::compare_backs;
use crate::differing::first_difference;
use crate::ending::{Ending, Sort, ends, host_ends, met, side_ends};
use crate::failing::{count_fails, downs, first_unfounded};
use crate::law::Law;
use crate::replying::{Replies, answers, due, host_answers, replied};
use bridge_relay::BridgeEntry;
use controller_core::Entry;
use host_port::HostEntry;
use ring_core::RingEntry;
use std::alloc::{AllocError, Global};

fn compare_asks(
    alloc: Global,
    ring: &[RingEntry],
    places: &[usize],
    made: Vec<Asking>,
) -> Result<Option<usize>, AllocError>
    requires { AreWithin ring.now places.now }
    ensures { IfOk result (Compared (asked_by (picked ring.now places.now)) made.items) }
{
    let posted = asked(alloc, ring, places)?;
    Ok(first_difference(posted.as_slice(), made.as_slice()))
}

fn compare_answers(
    alloc: Global,
    ring: &[RingEntry],
    places: &[usize],
    mut answers: Vec<Served>,
) -> Result<Option<usize>, AllocError>
    requires { AreWithin ring.now places.now }
    ensures { IfOk result (ComparesAnswers answers.items (picked ring.now places.now)) }
{
    add_port_answers(alloc, &mut answers, ring, places)?;
    let taken = taken_in_order(alloc, ring, places)?;
    Ok(first_difference(answers.as_slice(), taken.as_slice()))
}

fn compare_replies(
    alloc: Global,
    ring: &[RingEntry],
    places: &[usize],
    peers: Replies,
) -> Result<Option<usize>, AllocError>
    requires { AreWithin ring.now places.now }
    ensures { IfOk result (ComparesReplies peers.items (picked ring.now places.now)) }
{
    let posted = replied(alloc, ring, places)?;
    let due = due(alloc, ring, places, peers)?;
    Ok(first_difference(posted.as_slice(), due.as_slice()))
}

fn compare_ends(
    alloc: Global,
    sort: Sort,
    ring: &[RingEntry],
    places: &[usize],
    ended: Vec<Ending>,
) -> Result<Option<usize>, AllocError>
    requires { AreWithin ring.now places.now }
    ensures { IfOk result (Compared ended.items
        (ended_by (station_of sort) [] (picked ring.now places.now))) }
{
    let came = met(alloc, sort, ring, places)?;
    Ok(first_difference(ended.as_slice(), came.as_slice()))
}

fn judge_downs(
    alloc: Global,
    ring: &[RingEntry],
    places: &[usize],
    fails: usize,
) -> Result<Option<usize>, AllocError>
    requires { AreWithin ring.now places.now }
    ensures { IfOk result (GoUpTo fails (downs_by (picked ring.now places.now))) }
{
    let downs = downs(alloc, ring, places)?;
    Ok(first_unfounded(downs.as_slice(), fails))
}

/// Where a controller breaks a law, counted from 0.
pub fn controller_breaks(
    alloc: Global,
    law: Law,
    entries: &[Entry],
    ring: &[RingEntry],
    places: &[usize],
) -> Result<Option<usize>, AllocError>
    requires { AreWithin ring.now places.now }
    ensures { IfOk result (IsLawEnd law AController (items_of entries.now) []
        (picked ring.now places.now)) }
{
    match law {
        Law::Asks => compare_asks(alloc, ring, places, called(alloc, entries)?),
        Law::Answers => compare_answers(alloc, ring, places, answered(alloc, entries)?),
        Law::Replies => compare_replies(alloc, ring, places, answers(alloc, entries)?),
        Law::Ends => compare_ends(alloc, Sort::Controller, ring, places, ends(alloc, entries)?),
        Law::Downs => judge_downs(alloc, ring, places, count_fails(entries)),
    }
}

/// Where a host breaks a law, counted from 0.
pub fn host_breaks(
    alloc: Global,
    law: Law,
    entries: &[HostEntry],
    ring: &[RingEntry],
    places: &[usize],
) -> Result<Option<usize>, AllocError>
    requires { AreWithin ring.now places.now }
    ensures { IfOk result (IsLawEnd law AHost (host_items_of entries.now) []
        (picked ring.now places.now)) }
{
    match law {
        Law::Asks => compare_asks(alloc, ring, places, host_called(alloc, entries)?),
        Law::Answers => compare_answers(alloc, ring, places, host_answered(alloc, entries)?),
        Law::Replies => compare_replies(alloc, ring, places, host_answers(alloc, entries)?),
        Law::Ends => compare_ends(alloc, Sort::Host, ring, places, host_ends(alloc, entries)?),
        Law::Downs => judge_downs(alloc, ring, places, 0),
    }
}

/// Where an end of a bridge breaks a law, counted from 0.
pub fn side_breaks(
    alloc: Global,
    law: Law,
    side: u8,
    entries: &[BridgeEntry],
    ring: &[RingEntry],
    places: &[usize],
) -> Result<Option<usize>, AllocError>
    requires { AreWithin ring.now places.now }
    ensures { IfOk result (IsLawEnd law ABridge (side_items side entries.now)
        (backs_of side entries.now) (picked ring.now places.now)) }
{
    match law {
        Law::Asks => compare_asks(alloc, ring, places, side_called(alloc, side, entries)?),
        Law::Answers => {
            let accepted = side_answered(alloc, side, entries)?;
            compare_answers(alloc, ring, places, accepted)
        }
        Law::Replies => compare_backs(alloc, side, entries, ring, places),
        Law::Ends => {
            let ends = side_ends(alloc, side, entries)?;
            compare_ends(alloc, Sort::Bridge, ring, places, ends)
        }
        Law::Downs => judge_downs(alloc, ring, places, 0),
    }
}
