//! What becomes of a frame on its way.
ghost use Rattle.std.specs.Prelude.{◌≡◌, ◌<◌, length};
ghost use Rattle.ring_core.specs.Machine.{fate_at, fate_reaches, told, told_by_target, heard_of};
ghost use Rattle.ring_core.specs.Scratch.{arrival_event, heard_event, post_event, take_event};

use crate::entry::Heard;
use crate::frame::FrameKind;
use plant_types::Fate;
use station_stats::StatEvent;

// What becomes of a frame that arrives at its target.
#[derive(Clone, Copy, Drop)]
pub(crate) enum Fell {
    AcceptedRequest,
    RepeatedRequest,
    // The inbox is full.
    CrowdedOut,
    AcceptedReply,
    DroppedReply,
}

// The fate of the transmission after so many.
pub(crate) fn fate_at(fates: &[Fate], sent: u64) -> Fate
    requires { 0 < length fates.now }
    ensures { result ≡ fate_at fates.now sent }
{
    fates[(sent % (fates.len() as u64)) as usize]
}

pub(crate) fn fate_reaches(fate: Fate) -> bool
    ensures { result ≡ fate_reaches fate }
{
    match fate {
        Fate::D => true,
        Fate::L => false,
        Fate::A => true,
    }
}

fn told(fate: Fate, heard: Heard) -> Heard
    ensures { result ≡ told fate heard }
{
    match fate {
        Fate::D => heard,
        Fate::L => Heard::Silent,
        Fate::A => Heard::Silent,
    }
}

fn told_by_target(fell: Fell) -> Heard
    ensures { result ≡ told_by_target fell }
{
    match fell {
        Fell::AcceptedRequest => Heard::Acked,
        Fell::RepeatedRequest => Heard::Acked,
        Fell::CrowdedOut => Heard::Busy,
        Fell::AcceptedReply => Heard::Acked,
        Fell::DroppedReply => Heard::Acked,
    }
}

// What the sender hears of its transmission.
pub(crate) fn heard_of(fate: Fate, fell: Option<Fell>) -> Heard
    ensures { result ≡ heard_of fate fell }
{
    match fell {
        None => Heard::Silent,
        Some(fell) => told(fate, told_by_target(fell)),
    }
}

// What a frame counts at its target.
pub(crate) fn arrival_event(fell: Fell) -> Option<StatEvent>
    ensures { result ≡ arrival_event fell }
{
    match fell {
        Fell::AcceptedRequest => Some(StatEvent::RequestAccepted),
        Fell::RepeatedRequest => Some(StatEvent::RequestRepeated),
        Fell::CrowdedOut => None,
        Fell::AcceptedReply => Some(StatEvent::ReplyAccepted),
        Fell::DroppedReply => Some(StatEvent::ReplyDropped),
    }
}

pub(crate) fn heard_event(heard: Heard) -> StatEvent
    ensures { result ≡ heard_event heard }
{
    match heard {
        Heard::Acked => StatEvent::Acked,
        Heard::Silent => StatEvent::Silent,
        Heard::Busy => StatEvent::Busy,
    }
}

pub(crate) fn post_event(kind: FrameKind) -> StatEvent
    ensures { result ≡ post_event kind }
{
    match kind {
        FrameKind::Request => StatEvent::RequestPosted,
        FrameKind::Reply => StatEvent::ReplyPosted,
    }
}

pub(crate) fn take_event(kind: FrameKind) -> StatEvent
    ensures { result ≡ take_event kind }
{
    match kind {
        FrameKind::Request => StatEvent::RequestTaken,
        FrameKind::Reply => StatEvent::ReplyTaken,
    }
}
