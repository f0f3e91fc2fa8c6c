//! Frames that are written.
use crate::heard::heard;
use ascii_port::frame_text;
use plant_types::Pdu;
use std::alloc::Global;
use std::process::Abort;
use std::test::Fail;

/// Requests and replies, and the text of each with address 1.
const TEXTS: &str = "\
050001ff00 => :01050001FF00FA
030000007d => :01030000007D7F
8302 => :0183027A
030000007e => :01030000007E7E
8303 => :01830379
0300000000 => :010300000000FC
03000000 => :0103000000FC
07 => :0107F8
8701 => :01870177
0500001234 => :010500001234B4
8503 => :01850377
050000ff00 => :01050000FF00FB
16000000f20025 => :0116000000F20025D2
170000000100000001020007 => :01170000000100000001020007DD
17020007 => :0117020007DF
080000a537 => :01080000A5371B
0800010000 => :010800010000F6
8803 => :01880374
";

/// A frame's text is the row's with its line end, and is heard as that frame.
fn is_written(rt: &impl Abort, alloc: Global, digits: &str, due: &str) -> Result<(), Fail> {
    let bytes = hex::decode(alloc, digits.as_bytes()).ok().ok_or("bytes")?;
    let pdu = Pdu::of(alloc, &bytes)?.ok_or("a PDU")?;
    let text = frame_text(alloc, 1, &pdu)?;
    let due = format!(in alloc; "{due}\r\n")?;
    assert!(rt; text.as_slice() == due.as_bytes(), "{digits}");
    let found = heard(alloc, &text)?;
    let due = format!(in alloc; "1 {digits};")?;
    assert!(rt; found == due, "{digits}");
    Ok(())
}

#[test]
fn frames_are_written(rt: HostRuntime) -> Result<(), Fail> {
    for row in TEXTS.lines() {
        let (digits, text) = row.split_once(" => ").ok_or("a text")?;
        is_written(&rt, rt.alloc(), digits, text)?;
    }
    Ok(())
}
