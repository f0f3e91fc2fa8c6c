//! The third law at an end of a bridge: the Replies that its node posted are what the bridge gave
//! back and what the port told.
ghost use Rattle.std.specs.Prelude.{◌≡◌, ◌++◌, true, false, map, IfOk, OnOk};
ghost use Rattle.tied_lists.specs.Items.{answered_of, port_answers, replied_by};
ghost use Rattle.joint_history.specs.Bridges.{backs_of};
ghost use Rattle.station_laws.specs.Backs.{HasNames, NotesName, port_reply_sorted, replies_to};
ghost use Rattle.station_laws.specs.Backs.{sorted_reply_in, side_back_sorted};
ghost use Rattle.station_laws.specs.Bound.{port_replies, sorted};
ghost use Rattle.station_laws.specs.Comparing.{ComparesBacks};
ghost use Rattle.station_laws.specs.Picked.{AreWithin, picked};

use crate::by_call::ByCall;
use crate::differing::{Same, first_difference};
use crate::replying::reply_of;
use bridge_relay::BridgeEntry;
use compared_items::same_bytes;
use mstr_block::CallId;
use plant_types::{Copied, Pdu};
use ring_core::{FrameKind, RingEntry};
use std::alloc::{AllocError, Global};
use std::marker::Model;

/// A Reply that was posted, given back or told, and whether it answers a request of the port.
#[derive(Drop)]
struct GivenReply {
    statistics: bool,
    id: CallId,
    reply: Option<Pdu>,
}

impl Model for GivenReply {
    ghost use Rattle.station_laws.specs.Bound.{SortedReply};

    ghost Value = { SortedReply };

    ghost view = { λ g. record { statistics = g.statistics; item = (g.id, g.reply) } };
}

impl Same for GivenReply {
    fn is_same(&self, other: &Self) -> bool {
        self.statistics == other.statistics
            && self.id == other.id
            && same_bytes(&self.reply, &other.reply)
    }
}

fn note_name(names: &mut ByCall<bool>, entry: &RingEntry) -> Result<(), AllocError>
    ensures { OnOk result (NotesName names.old (answered_of entry.now) names.new) }
{
    let RingEntry::Local { node, id, .. } = entry else {
        return Ok(());
    };
    if id.node == *node {
        return Ok(());
    }
    names.put(*id, true)
}

/// The names of the requests that a node's port answered.
fn port_names(
    alloc: Global,
    ring: &[RingEntry],
    places: &[usize],
) -> Result<ByCall<bool>, AllocError>
    requires { AreWithin ring.now places.now }
    ensures { IfOk result (HasNames (port_answers (picked ring.now places.now))) }
{
    let mut names = ByCall::new(alloc);
    for place in places {
        note_name(&mut names, &ring[*place])?;
    }
    Ok(names)
}

fn add_reply(
    alloc: Global,
    names: &ByCall<bool>,
    statistics: bool,
    list: &mut Vec<GivenReply>,
    entry: &RingEntry,
) -> Result<(), AllocError>
    ensures { OnOk result
        (list.new.items ≡ list.old.items ++ sorted_reply_in names.now statistics entry.now) }
{
    let RingEntry::Post { frame, .. } = entry else {
        return Ok(());
    };
    if let FrameKind::Request = frame.kind {
        return Ok(());
    }
    if names.get(frame.id).is_some() != statistics {
        return Ok(());
    }
    let reply = frame.pdu.copied(alloc)?;
    list.push(GivenReply {
        statistics,
        id: frame.id,
        reply: Some(reply),
    })?;
    Ok(())
}

/// Adds the Replies that a node posted to what its port answered, or those to others.
fn add_replies(
    alloc: Global,
    names: &ByCall<bool>,
    statistics: bool,
    list: &mut Vec<GivenReply>,
    ring: &[RingEntry],
    places: &[usize],
) -> Result<(), AllocError>
    requires { AreWithin ring.now places.now }
    ensures { OnOk result (list.new.items ≡ list.old.items
        ++ replies_to names.now statistics (replied_by (picked ring.now places.now))) }
{
    for place in places {
        add_reply(alloc, names, statistics, list, &ring[*place])?;
    }
    Ok(())
}

fn add_back(
    alloc: Global,
    side: u8,
    list: &mut Vec<GivenReply>,
    entry: &BridgeEntry,
) -> Result<(), AllocError>
    ensures { OnOk result
        (list.new.items ≡ list.old.items ++ side_back_sorted side entry.now) }
{
    let BridgeEntry::Back {
        side: near,
        id,
        reply,
    } = entry
    else {
        return Ok(());
    };
    if *near == side {
        let reply = reply.copied(alloc)?;
        list.push(GivenReply {
            statistics: false,
            id: *id,
            reply: Some(reply),
        })?;
    }
    Ok(())
}

/// Adds what an end of a bridge gave back.
fn add_backs(
    alloc: Global,
    side: u8,
    list: &mut Vec<GivenReply>,
    entries: &[BridgeEntry],
) -> Result<(), AllocError>
    ensures { OnOk result
        (list.new.items ≡ list.old.items ++ map (sorted false) (backs_of side entries.now)) }
{
    for entry in entries {
        add_back(alloc, side, list, entry)?;
    }
    Ok(())
}

fn add_port_reply(
    alloc: Global,
    list: &mut Vec<GivenReply>,
    entry: &RingEntry,
) -> Result<(), AllocError>
    ensures { OnOk result
        (list.new.items ≡ list.old.items ++ port_reply_sorted entry.now) }
{
    let RingEntry::Local {
        node,
        id,
        result,
        ..
    } = entry
    else {
        return Ok(());
    };
    if id.node == *node {
        return Ok(());
    }
    let reply = reply_of(alloc, result)?;
    list.push(GivenReply {
        statistics: true,
        id: *id,
        reply: Some(reply),
    })?;
    Ok(())
}

/// Adds the Replies that tell what a node's port answered.
fn add_port_replies(
    alloc: Global,
    list: &mut Vec<GivenReply>,
    ring: &[RingEntry],
    places: &[usize],
) -> Result<(), AllocError>
    requires { AreWithin ring.now places.now }
    ensures { OnOk result (list.new.items ≡ list.old.items
        ++ map (sorted true) (port_replies (picked ring.now places.now))) }
{
    for place in places {
        add_port_reply(alloc, list, &ring[*place])?;
    }
    Ok(())
}

/// Where the Replies that the node of an end of a bridge posted are not those that it gave back and
/// that its port told.
pub(crate) fn compare_backs(
    alloc: Global,
    side: u8,
    entries: &[BridgeEntry],
    ring: &[RingEntry],
    places: &[usize],
) -> Result<Option<usize>, AllocError>
    requires { AreWithin ring.now places.now }
    ensures { IfOk result
        (ComparesBacks (backs_of side entries.now) (picked ring.now places.now)) }
{
    let names = port_names(alloc, ring, places)?;
    let mut posted = Vec::new(alloc);
    add_replies(alloc, &names, false, &mut posted, ring, places)?;
    add_replies(alloc, &names, true, &mut posted, ring, places)?;
    let mut given = Vec::new(alloc);
    add_backs(alloc, side, &mut given, entries)?;
    add_port_replies(alloc, &mut given, ring, places)?;
    Ok(first_difference(posted.as_slice(), given.as_slice()))
}
