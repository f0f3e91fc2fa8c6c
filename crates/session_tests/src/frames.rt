//! Frames that are served between two scans.
use crate::benches::session_of;
use std::alloc::{AllocError, Global};
use std::process::Abort;
use std::test::Fail;

/// A coil that follows another.
const PLANT: &str = "version = 1\n[[controller]]\nnode = 1\ncoils = 16\ninputs = 16\n\
    registers = 100\norders = [\"1 - - -\"]\npanel = [\"00001\"]\n[[controller.segment]]\n\
    networks = [\"1,1 NO 00002; 1,2 CO 00001\"]\n";

/// What an operator sends in two scans, and what comes back.
const ROWS: [(&str, &str); 14] = [
    ("", "S 1 N 1 00001=0\nS 2 N 1 00001=0\n"),
    (
        ":01050001FF00FA\r\n",
        "S 1 N 1 00001=0\n:01050001FF00FA\r\nS 2 N 1 00001=1\n",
    ),
    (":01050001FF00FB\r\n", "S 1 N 1 00001=0\nS 2 N 1 00001=0\n"),
    (
        "x:0105:01050001FF00FA\r\n",
        "S 1 N 1 00001=0\n:01050001FF00FA\r\nS 2 N 1 00001=1\n",
    ),
    (":01050001ff00fa\r\n", "S 1 N 1 00001=0\nS 2 N 1 00001=0\n"),
    // A frame for all is served and has no reply. It takes its scan.
    (":00050001FF00FB\r\n", "S 1 N 1 00001=0\nS 2 N 1 00001=1\n"),
    (
        ":00050001FF00FB\r\n:0107F8\r\n",
        "S 1 N 1 00001=0\nS 2 N 1 00001=1\n:01870177\r\n",
    ),
    // A frame for another node takes none.
    (":02050001FF00F9\r\n", "S 1 N 1 00001=0\nS 2 N 1 00001=0\n"),
    (
        ":02050001FF00F9\r\n:01050001FF00FA\r\n",
        "S 1 N 1 00001=0\n:01050001FF00FA\r\nS 2 N 1 00001=1\n",
    ),
    // One frame is served in each scan.
    (
        ":0107F8\r\n:01050001FF00FA\r\n",
        "S 1 N 1 00001=0\n:01870177\r\nS 2 N 1 00001=0\n:01050001FF00FA\r\n",
    ),
    (
        ":01050001FF00FA\r\n:010100000001FD\r\n",
        "S 1 N 1 00001=0\n:01050001FF00FA\r\nS 2 N 1 00001=1\n:01010101FC\r\n",
    ),
    // Those that are left are served after the last scan.
    (
        ":0107F8\r\n:0107F8\r\n:01050001FF00FA\r\n",
        "S 1 N 1 00001=0\n:01870177\r\nS 2 N 1 00001=0\n:01870177\r\n:01050001FF00FA\r\n",
    ),
    (
        ":0107F8\r\n:0107F8\r\n:00050001FF00FB\r\n:010100000002FC\r\n",
        "S 1 N 1 00001=0\n:01870177\r\nS 2 N 1 00001=0\n:01870177\r\n:01010102FB\r\n",
    ),
    // Without its line end it is no frame.
    (":01050001FF00FA", "S 1 N 1 00001=0\nS 2 N 1 00001=0\n"),
];

#[test]
fn frames_have_their_scans(rt: HostRuntime) -> Result<(), Fail> {
    for (stream, due) in ROWS {
        let session = session_of(rt.alloc(), PLANT, 2, stream.as_bytes())?;
        assert!(rt; session.text.as_slice() == due.as_bytes(), "{stream}");
    }
    Ok(())
}

/// So many zeros after a colon, and then a frame.
fn behind_zeros(alloc: Global, count: usize) -> Result<Vec<u8>, AllocError> {
    let mut stream = vec![in alloc; b'0'; count]?;
    stream.insert(0, b':')?;
    stream.extend_from_slice(b"\r\n:01050001FF00FA\r\n")?;
    Ok(stream)
}

/// 510 zeros are a frame for all, which takes the first scan; 511 are none.
const LONG: [(usize, &str); 2] = [
    (510, "S 1 N 1 00001=0\nS 2 N 1 00001=0\n:01050001FF00FA\r\n"),
    (511, "S 1 N 1 00001=0\n:01050001FF00FA\r\nS 2 N 1 00001=1\n"),
];

#[test]
fn long_frames(rt: HostRuntime) -> Result<(), Fail> {
    let alloc = rt.alloc();
    for (count, due) in LONG {
        let stream = behind_zeros(alloc, count)?;
        let session = session_of(alloc, PLANT, 2, &stream)?;
        assert!(rt; session.text.as_slice() == due.as_bytes(), "{count}");
    }
    Ok(())
}
