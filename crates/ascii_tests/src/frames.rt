//! Frames among other bytes.
use crate::heard::heard;
use std::process::Abort;
use std::test::Fail;

/// Streams, and the frames on each.
const STREAMS: [(&str, &str); 24] = [
    (":01050001FF00FA\r\n", "1 050001ff00;"),
    (":01050001FF00FB\r\n", ""),
    ("x:0105:01050001FF00FA\r\n", "1 050001ff00;"),
    // Two frames, one behind the other, and bytes between frames.
    (":0107F8\r\n:0207F7\r\n", "1 07;2 07;"),
    (":0107F8\r\n0207F7\r\n", "1 07;"),
    (":0107F8\r\n\r\n", "1 07;"),
    ("0107F8\r\n:0207F7\r\n", "2 07;"),
    (":0107F8\r\n x\n:0207F7\r\n", "1 07;2 07;"),
    // A colon begins anew, also where a frame is as good as ended.
    (":0107F8\r:\n:0207F7\r\n", "2 07;"),
    (":0:1:0:7:F:8:\r:\n", ""),
    ("::::0107F8\r\n", "1 07;"),
    (":0107F8:\r\n", ""),
    // Digits are capitals.
    (":01050001ff00fa\r\n", ""),
    (":01050001FF00fA\r\n", ""),
    (":01050001FF00Fa\r\n", ""),
    (":01050001FF00FG\r\n", ""),
    // Ends that are none, and bytes that come before the end.
    (":0107F8\r\r\n", ""),
    (":0107F8\r", ""),
    (":0107F8\n", ""),
    (":0107F8\r \n", ""),
    (":0107F8 \r\n", ""),
    (":0107 F8\r\n", ""),
    (": 0107F8\r\n", ""),
    (":0107F8\n\r\n", ""),
];

#[test]
fn streams_have_their_frames(rt: HostRuntime) -> Result<(), Fail> {
    for (stream, frames) in STREAMS {
        let found = heard(rt.alloc(), stream.as_bytes())?;
        assert!(rt; found.as_str() == frames, "{stream}");
    }
    Ok(())
}
