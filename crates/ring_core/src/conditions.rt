//! Tests of what the calls of a ring ask of their caller.
ghost use Rattle.std.specs.Prelude.{◌≡◌, ◌<◌, true, length, All};
ghost use Rattle.ring_core.specs.Machine.{addresses};
ghost use Rattle.ring_core.specs.Legal.{IsPath, IsFrom};

use crate::frame::{Frame, FrameKind};
use plant_types::{ADDRESSES, NetPlan};

fn are_low(members: &[u8]) -> bool
    ensures only { result ≡ true → All (λ m. m < addresses) members.now }
    ensures all { All (λ m. m < addresses) members.now → result ≡ true }
{
    for at in 0..members.len() {
        if members[at] >= ADDRESSES {
            return false;
        }
    }
    true
}

/// Whether a ring can be made for a plan: all addresses are below 65, and there is a fate.
pub fn is_net(plan: &NetPlan) -> bool
    ensures members { result ≡ true → All (λ m. m < addresses) plan.now.members }
    ensures fates { result ≡ true → 0 < length plan.now.fates }
    ensures all { All (λ m. m < addresses) plan.now.members → 0 < length plan.now.fates →
        result ≡ true }
{
    are_low(plan.members.as_slice()) && !plan.fates.as_slice().is_empty()
}

/// Whether it is one of the four paths of a node.
pub fn is_path(path: u8) -> bool
    ensures only { result ≡ true → IsPath path }
    ensures all { IsPath path → result ≡ true }
{
    path >= 1 && path <= 4
}

fn is_request_from(node: u8, frame: &Frame) -> bool
    ensures only { result ≡ true → IsFrom node FrameKind.Request frame.now }
    ensures all { IsFrom node FrameKind.Request frame.now → result ≡ true }
{
    if frame.id.node != node || frame.to == node {
        return false;
    }
    is_path(frame.id.path)
}

fn is_reply_from(node: u8, frame: &Frame) -> bool
    ensures only { result ≡ true → IsFrom node FrameKind.Reply frame.now }
    ensures all { IsFrom node FrameKind.Reply frame.now → result ≡ true }
{
    frame.to == frame.id.node && frame.to != node && !frame.is_onward()
}

/// Whether a node may post a frame, by the frame alone.
pub fn is_from(node: u8, frame: &Frame) -> bool
    ensures only { result ≡ true → IsFrom node frame.now.kind frame.now }
    ensures all { IsFrom node frame.now.kind frame.now → result ≡ true }
{
    match frame.kind {
        FrameKind::Request => is_request_from(node, frame),
        FrameKind::Reply => is_reply_from(node, frame),
    }
}
