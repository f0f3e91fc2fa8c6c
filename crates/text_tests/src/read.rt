//! Journals that are read: each kind of line right, and wrong in each way that its fields can be.
use journal_text::{JournalFault, is_plain, journal_text, read_journal};
use std::alloc::{AllocError, Global};
use std::process::Abort;
use std::test::Fail;

/// The journal of one controller with two scans, alone on its ring.
const ALONE: &str = "%JOURNAL
C 1
B
E
B
E
R
PA 1 0 -
PA 1 0 -
PA 1 0 -
PA 1 0 -
PA 1 1 -
PA 1 1 -
LE 1 E
%END
";

/// Texts, and the number of the line where each is wrong; 0 where it is a journal.
const TEXTS: [(&str, u32); 50] = [
    (ALONE, 0),
    ("", 1),
    ("%JOURNAL", 1),
    ("%journal\nR\n%END\n", 1),
    ("%JOURNAL\r\nR\n%END\n", 1),
    ("%END\n", 1),
    ("%JOURNAL\n", 2),
    ("%JOURNAL\n%END\n", 0),
    ("%JOURNAL\nR\n%END", 3),
    ("%JOURNAL\nR\n%END\r\n", 3),
    ("%JOURNAL\nR\n%END\n", 0),
    ("%JOURNAL\nR\n%END\n\n", 4),
    ("%JOURNAL\nR\n%END\nR", 4),
    ("%JOURNAL\nC 2\nB", 3),
    ("%JOURNAL\nC 2\nB\n", 4),
    ("%JOURNAL\nC 2\nZ\nY\n", 3),
    ("%JOURNAL\nC 0\nC 255\nR\n%END\n", 0),
    ("%JOURNAL\nC 256\nR\n%END\n", 2),
    ("%JOURNAL\nC 02\nR\n%END\n", 2),
    ("%JOURNAL\nC 2\nC 2\nR\n%END\n", 3),
    ("%JOURNAL\nC 2\nH 2\nR\n%END\n", 0),
    ("%JOURNAL\nH 2\nH 1\nR\n%END\n", 3),
    ("%JOURNAL\nH 2\nC 3\nR\n%END\n", 3),
    ("%JOURNAL\nR\nC 2\n%END\n", 3),
    ("%JOURNAL\nC 2\nB\n%END\n", 0),
    ("%JOURNAL\nH 2\n%END\n", 0),
    ("%JOURNAL\nW 9 12\n%END\n", 0),
    ("%JOURNAL\nR\nJN 5\nR 1\nJN 5\nR 255\n%END\n", 0),
    ("%JOURNAL\nR 0\n%END\n", 2),
    ("%JOURNAL\nR 01\n%END\n", 2),
    ("%JOURNAL\nR 256\n%END\n", 2),
    ("%JOURNAL\nR \n%END\n", 2),
    ("%JOURNAL\nR 1 \n%END\n", 2),
    ("%JOURNAL\nR\nR\n%END\n", 3),
    ("%JOURNAL\nR 2\nR 2\n%END\n", 3),
    ("%JOURNAL\nR 2\nR 1\n%END\n", 3),
    ("%JOURNAL\nR 2\nR\n%END\n", 3),
    ("%JOURNAL\nC 1\nH 2\nW 0 255\nW 9 9\nR\n%END\n", 0),
    ("%JOURNAL\nC 1\nW 9 12\nW 10 3\nR 7\n%END\n", 0),
    ("%JOURNAL\nW 9 12\nW 9 13\n%END\n", 3),
    ("%JOURNAL\nW 12 9\nW 9 12\n%END\n", 3),
    ("%JOURNAL\nW 9\n%END\n", 2),
    ("%JOURNAL\nW 9 12 \n%END\n", 2),
    ("%JOURNAL\nW 09 12\n%END\n", 2),
    ("%JOURNAL\nW 9 256\n%END\n", 2),
    ("%JOURNAL\nW 9 12\nC 2\n%END\n", 3),
    ("%JOURNAL\nW 9 12\nH 2\n%END\n", 3),
    ("%JOURNAL\nR\nW 9 12\n%END\n", 3),
    ("%JOURNAL\nR 1\nH 2\n%END\n", 3),
    ("%JOURNAL\nW 9 12\nR\n%END\nR 1\n", 5),
];

/// Lines of a controller, each right.
const CONTROLLER_RIGHT: &str = "B
E
I 0
I 65535
S 1
O 1 -
O 1 00ffabcd
L 2.1.1=5:03
L 2.1.1=5:03 2.0.0=GS 3.0.2=CS
L 2.1.1=5.6:03 2.1.2=0.1.2.3.255:03
L 2.0.1=PG:- 2.0.2=GG:64:32
P 2.4.4294967295 01 8101
F 2.0.4 G -
F 2.0.4 G 0001
F 2.0.4 B 200a
X
K
N 2.4.1 01";

/// Lines of a controller, each wrong in one way.
const CONTROLLER_WRONG: &str = "B\x20

E\r
I 65536
I 00
I +1
I
I\x20
I 1\x20
S 01
S 99999999999999999999
O 1\x20
O 1
O 1 00ffABCD
O 1 00ffab
O 1  -
O 1 --
O 1 0x12
L
L\x20
L 2.1.1=5:03\x20
L 2.1.1=5:
L 2.1.1=256:03
L 2.1.1=:03
L 2.1.1=5.:03
L 2.1.1=5..6:03
L 2.1.1=5.06:03
L 2.1.1=5.256:03
L 2.1.1=1.2.3.4.5.6:03
L 2.1.1=RG
L 2.1.1=RC
L 2.1.1=gs
L 2.0.1=PG:
L 2.0.1=GG:64
L 2.0.1=GG:64:032
P 2.4.4294967296 01 8101
P 2.4 01 8101
P 2.4.1.1 01 8101
P 2.04.1 01 8101
P 2.4.1 01 810
P 2.4.1 01\x20
P 2.4.1 01
P 2.4.1 - 8101
F 2.0.4 B 200A
F 2.0.4 B 20a
F 2.0.4 B -
F 2.0.4 C 200a
F 2.0.4 G
X\x20
K 1
N 2.4.1
N 2.4.1 01 8101
N 2.4.1 -
Z
Q 2.1.1 5 03";

/// Lines of a host, each right.
const HOST_RIGHT: &str = "Q 10.1.1 2 0300000001
Q 10.1.1 2.3.4.5.6 0300000001
A 10.1.1 R 03020000
A 10.1.1 B 6103
P 2.4.1 01 8101";

/// Lines of a host, each wrong in one way.
const HOST_WRONG: &str = "Q 10.1.1 2
Q 10.1.1 02 03
Q 10.1.1  03
Q 10.1.1 - 03
Q 10.1.1 .2 03
Q 10.1.1 2.3.4.5.6.7 03
A 10.1.1 G 6103
A 10.1.1 R\x20
N 2.4.1 01
B";

/// Lines of a bridge, each right.
const BRIDGE_RIGHT: &str = "T 9 2.1.1 5 0300000002
T 9 2.1.1 5.6.7.8.9 0300000002
T 9 2.1.1 - 0300000002
T 0 0.0.0 0 01
U 12 2.1.1 12.1.1 5 0300000002
U 12 2.1.1 12.4.4294967295 5.6.7.8.9 0300000002
A 12 12.1.1 R 0304002a002b
A 12 12.1.1 B 6103
V 9 2.1.1 0304002a002b
G 9
G 255";

/// Lines of a bridge, each wrong in one way.
const BRIDGE_WRONG: &str = "T 9 2.1.1 0300000002
T 9 2.1.1  0300000002
T 9 2.1.1 5
T 9 2.1.1 -- 03
T 9 2.1.1 -.5 03
T 9 2.1.1 5.- 03
T 9 2.1.1 5.6.7.8.9.10 03
T 9 2.1.1 05 03
T 09 2.1.1 5 03
T 256 2.1.1 5 03
T 2.1.1 5 03
T 9 2.1 5 03
T 9 2.1.1 5 03\x20
T 9 2.1.1 5 0G
U 12 2.1.1 12.1.1 - 03
U 12 2.1.1 5 03
U 12 2.1.1 12.1.1 5.6.7.8.9.10 03
U 12 2.1.1 12.1.1 5
U 12 2.1.1 12.1.1 03
U 12 12.1.1 5 03
A 12 12.1.1 G 0304
A 12 12.1.1 R
A 12 12.1.1 R\x20
A 12 12.1.1 B 610
A 12.1.1 R 03
V 9 2.1.1
V 9 2.1.1 -
V 9 2.1.1 5 03
V 2.1.1 03
G
G\x20
G 09
G 256
G 9 12
B
Q 9.1.1 2 03
JN 9";

/// Lines of the ring, each right.
const RING_RIGHT: &str = "PO 2 Q 2.1.1 5 0300000002
PO 2 Q 2.1.1 5.6 0300000002
PO 2 Q 2.1.1 5.6.7.8.9.10 0300000002
PO 5 R 2.1.1 0304002a002b
SE 2 A
SE 2 S
SE 2 B
TA 5 Q 2.1.1 0300000002
TA 5 Q 2.1.1 0300000002 6
TA 5 Q 2.1.1 0300000002 6.7.8.9.10
TA 2 R 2.1.1 0304002a002b
LO 3 3.0.4 GG:64:32 B 200a
LO 3 2.1.1 RG G 0003
LO 3 2.1.2 RC G -
GU 2.1.2 6101
PA 2 0 -
PA 2 1 00070008
LE 2 E
LE 5 S
LE 5 D0
LE 5 D1
LE 5 D4294967295
JN 5";

/// Lines of the ring, each wrong in one way.
const RING_WRONG: &str = "PO 2 Q 2.1.1 0300000002
PO 2 Q 2.1.1 5.06 03
PO 2 Q 2.1.1 5. 03
PO 2 Q 2.1.1 5.6.7.8.9.10.11 03
PO 5 R 2.1.1 2 0304002a002b
SE 2 C
SE 2
TA 5 Q 2.1.1 5 0300000002
TA 5 Q 2.1.1 03\x20
TA 5 Q 2.1.1 03 06
TA 5 Q 2.1.1 03 6 7
TA 5 Q 2.1.1 03 6.7.8.9.10.11
TA 2 R 2.1.1 03 6
LO 3 2.1.2 RX G -
LO 3 2.1.2 GS
GU 2.1.2 61011
PA 2 2 -
PA 2 0
LE 5 A
LE 1 F
LE 5 D
LE 5 D01
LE 5 D4294967296
LE 5 D 1
LE 5 E1
JN
JN 05
JN 256
JN 5 1";

/// The number of the first wrong line; 0 where the text is a journal, which is written as it was.
fn wrong_line(alloc: Global, text: &str) -> Result<u32, Fail> {
    let joint = match read_journal(alloc, text.as_bytes()) {
        Ok(joint) => joint,
        Err(JournalFault::Text(line)) => return Ok(line),
        Err(JournalFault::NoMemory) => return Err(Fail::from("out of memory")),
    };
    if !is_plain(&joint) {
        return Err(Fail::from("what is read is plain"));
    }
    let again = journal_text(alloc, &joint)?;
    if again.as_slice() == text.as_bytes() {
        Ok(0)
    } else {
        Err(Fail::from("what is read is written so"))
    }
}

/// A journal with one line in a section.
fn with_line(alloc: Global, head: &str, line: &str) -> Result<String, AllocError> {
    if head == "R" {
        format!(in alloc; "%JOURNAL\nR\n{line}\n%END\n")
    } else {
        format!(in alloc; "%JOURNAL\n{head}\n{line}\nR\n%END\n")
    }
}

#[test]
fn texts(rt: HostRuntime) -> Result<(), Fail> {
    for (text, line) in TEXTS {
        assert_eq!(rt; wrong_line(rt.alloc(), text)?, line, "{text}");
    }
    Ok(())
}

/// How many lines of a section are answered otherwise than by this number.
fn misread(alloc: Global, head: &str, lines: &str, number: u32) -> Result<u32, Fail> {
    let mut count = 0u32;
    for line in lines.split('\n') {
        let text = with_line(alloc, head, line)?;
        if wrong_line(alloc, text.as_str())? != number {
            count = count.saturating_add(1);
        }
    }
    Ok(count)
}

#[test]
fn lines_of_a_controller(rt: HostRuntime) -> Result<(), Fail> {
    let alloc = rt.alloc();
    let right = misread(alloc, "C 2", CONTROLLER_RIGHT, 0)?;
    let wrong = misread(alloc, "C 2", CONTROLLER_WRONG, 3)?;
    assert_eq!(rt; (right, wrong), (0, 0));
    Ok(())
}

#[test]
fn lines_of_a_host(rt: HostRuntime) -> Result<(), Fail> {
    let alloc = rt.alloc();
    let right = misread(alloc, "H 10", HOST_RIGHT, 0)?;
    let wrong = misread(alloc, "H 10", HOST_WRONG, 3)?;
    assert_eq!(rt; (right, wrong), (0, 0));
    Ok(())
}

#[test]
fn lines_of_a_bridge(rt: HostRuntime) -> Result<(), Fail> {
    let alloc = rt.alloc();
    let right = misread(alloc, "W 9 12", BRIDGE_RIGHT, 0)?;
    let wrong = misread(alloc, "W 9 12", BRIDGE_WRONG, 3)?;
    assert_eq!(rt; (right, wrong), (0, 0));
    Ok(())
}

#[test]
fn lines_of_the_ring(rt: HostRuntime) -> Result<(), Fail> {
    let alloc = rt.alloc();
    let right = misread(alloc, "R", RING_RIGHT, 0)?;
    let wrong = misread(alloc, "R", RING_WRONG, 3)?;
    assert_eq!(rt; (right, wrong), (0, 0));
    Ok(())
}

fn repeated(alloc: Global, digits: &str, count: u32) -> Result<String, AllocError> {
    let mut text = String::new(alloc);
    for _ in 0..count {
        text.push_str(digits)?;
    }
    Ok(text)
}

/// A PDU has at most 253 bytes and a block at most 100 words; words with the token are not bound.
#[test]
fn sizes(rt: HostRuntime) -> Result<(), Fail> {
    let alloc = rt.alloc();
    let lines = [
        ("H 10", "Q 10.1.1 2 ", "00", 253, true),
        ("H 10", "Q 10.1.1 2 ", "00", 254, false),
        ("C 2", "F 2.1.1 G ", "abcd", 100, true),
        ("C 2", "F 2.1.1 G ", "abcd", 101, false),
        ("C 2", "O 1 ", "abcd", 101, false),
        ("R", "PA 2 0 ", "abcd", 1000, true),
        ("W 9 12", "V 9 2.1.1 ", "00", 253, true),
        ("W 9 12", "V 9 2.1.1 ", "00", 254, false),
    ];
    for (head, front, digits, count, right) in lines {
        let behind = repeated(alloc, digits, count)?;
        let line = format!(in alloc; "{front}{behind}")?;
        let text = with_line(alloc, head, line.as_str())?;
        let place = if right { 0 } else { 3 };
        assert_eq!(rt; wrong_line(alloc, text.as_str())?, place, "{front}");
    }
    Ok(())
}
