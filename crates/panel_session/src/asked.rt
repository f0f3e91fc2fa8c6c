//! The frames on a stream that are for a node.
ghost use Rattle.std.specs.Prelude.{◌≡◌, ◌++◌, IfOk, OnOk};
ghost use Rattle.ascii_port.specs.Hearing.{HasFrame};
ghost use Rattle.ascii_port.specs.Frames.{frame_of};
ghost use Rattle.panel_session.specs.Asked.{frame_asked, frames_heard, own_frame};
ghost use Rattle.panel_session.specs.Serving.{frames_for};

use ascii_port::{Fed, Port};
use plant_types::Pdu;
use std::alloc::{AllocError, Global};

/// A frame that was heard on a port. This project's own.
#[derive(Drop)]
pub struct PortFrame {
    /// The address of a node, or 0, which is that of all.
    pub address: u8,
    pub pdu: Pdu,
}

/// The frame that came with the last byte.
fn frame_at(alloc: Global, port: &Port) -> Result<PortFrame, AllocError>
    requires { HasFrame port.now }
    ensures { IfOk result (λ asked. frame_asked asked ≡ frame_of port.now.bytes) }
{
    let address = port.address();
    match Pdu::of(alloc, port.pdu())? {
        Some(pdu) => Ok(PortFrame { address, pdu }),
        None => unreachable!(),
    }
}

/// Adds the frame that came with the last byte, if it is for a node.
fn add_frame(
    alloc: Global,
    list: &mut Vec<PortFrame>,
    node: u8,
    port: &Port,
) -> Result<(), AllocError>
    requires { HasFrame port.now }
    ensures { OnOk result (frames_heard list.new.items ≡ frames_heard list.old.items
        ++ own_frame node port.now) }
{
    let address = port.address();
    if address == node || address == 0 {
        list.push(frame_at(alloc, port)?)?;
    }
    Ok(())
}

/// The frames on a stream with the address of a node, or with that of all, 0.
pub fn frames_for(alloc: Global, node: u8, stream: &[u8]) -> Result<Vec<PortFrame>, AllocError>
    ensures frames { IfOk result (λ list. frames_heard list.items ≡ frames_for node stream.now) }
{
    let mut port = Port::new();
    let mut list = Vec::new(alloc);
    for byte in stream {
        match port.feed(*byte) {
            Fed::More => {}
            Fed::Frame => add_frame(alloc, &mut list, node, &port)?,
        }
    }
    Ok(list)
}
