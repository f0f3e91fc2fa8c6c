//! Writes one frame.
ghost use Rattle.std.specs.Prelude.{◌≡◌, IfOk};
ghost use Rattle.ascii_port.specs.Frames.{frame_text};

use crate::gathered::Gathered;
use plant_types::Pdu;
use std::alloc::{AllocError, Global};

/// The text of a frame, with its check and its line end.
#[tactic(auto, unfolding(crate::specs::Frames::frame_text))]
pub fn frame_text(alloc: Global, address: u8, pdu: &Pdu) -> Result<Vec<u8>, AllocError>
    ensures { IfOk result (λ text. text.items ≡ frame_text address pdu.now) }
{
    let mut frame = Gathered::new();
    frame.push(address);
    for byte in pdu.bytes() {
        frame.push(*byte);
    }
    frame.push(frame.check());
    let digits = hex::encode_upper(alloc, frame.bytes())?;
    let text = format!(in alloc; ":{digits}\r\n")?;
    Ok(text.into_bytes())
}
