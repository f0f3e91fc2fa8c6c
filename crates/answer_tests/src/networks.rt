//! Runs of plants with several stations, and their journals.
use crate::cases::{answered, show};
use std::alloc::{AllocError, Global};
use std::test::Fail;

/// A plant whose node 2 reads two registers of node 5, which are 42 and 43.
const READ2: &str = r#"version = 1
[net]
rotations = 2
rounds = 1
[[controller]]
node = 2
coils = 16
registers = 20
panel = ["40002","40011","40012","00001","00002","00003"]
orders = ["1 - - -"]
[[controller.segment]]
networks = ["1,1 ADD 2 0 40001; 4,1 ADD 2 0 40003","1,1 ADD 1 0 40004; 4,1 ADD 5 0 40005",
"1,1 H; 1,2 MSTR 40001 40011 10; 1,3 CO 00001; 2,3 CO 00002; 3,3 CO 00003"]
[[controller]]
node = 5
registers = 4
orders = ["1 - - -"]
[[controller.segment]]
networks = ["1,1 ADD 41 1 40001; 4,1 ADD 43 0 40002"]
"#;

const CASES: &str = r#"
@case run 2
@note The only acknowledgement is lost, and so is the first of two.
@put rounds = 1
rounds = 1
fates = "A"
@told Ok
...
S 2 N 2 40002=24833 40011=0 40012=0 00001=0 00002=1 00003=0
...
@case run 2
@put rounds = 1
rounds = 1
fates = "AD"
@told Ok
...
S 2 N 2 40002=0 40011=42 40012=43 00001=0 00002=0 00003=1
...
@case run 2
@note The node itself, too many words, and no operation.
@put ADD 5 0 40005
ADD 2 0 40005
@told Ok
...
S 1 N 2 40002=8201 40011=0 40012=0 00001=0 00002=1 00003=0
...
@case run 2
@put ADD 2 0 40003
ADD 101 0 40003
@told Ok
...
S 1 N 2 40002=8195 40011=0 40012=0 00001=0 00002=1 00003=0
...
@case run 2
@put ADD 2 0 40001
ADD 10 0 40001
@told Ok
...
S 1 N 2 40002=8193 40011=0 40012=0 00001=0 00002=1 00003=0
...
@case run 2
@note A node that is not there, and one that is a host.
@put ADD 5 0 40005
ADD 9 0 40005
@told Ok
...
S 2 N 2 40002=24835 40011=0 40012=0 00001=0 00002=1 00003=0
...
@case run 2
@put ADD 5 0 40005
ADD 9 0 40005
@behind
[[host]]
node = 9
@told Ok
...
S 2 N 2 40002=12289 40011=0 40012=0 00001=0 00002=1 00003=0
...
@case run 4
@note Both nodes leave in their second turns, so a visit ends the call of scan 3.
@put rounds = 1
rounds = 1
holds = 1
@told Ok
...
S 3 N 2 40002=0 40011=42 40012=43 00001=1 00002=0 00003=0
S 3 N 5
S 4 N 2 40002=24835 40011=42 40012=43 00001=0 00002=1 00003=0
S 4 N 5
...
@case run 3
@note The message is aborted while it is out.
@put rotations = 2
rotations = 1
@put 1,1 H; 1,2 MSTR
1,1 H; 2,1 NO 00004; 1,2 MSTR
@put 3,3 CO 00003"
3,3 CO 00003", "1,1 H; 1,2 CO 00004"
@told Ok
...
S 1 N 2 40002=0 40011=0 40012=0 00001=1 00002=0 00003=0
S 1 N 5
S 2 N 2 40002=4097 40011=0 40012=0 00001=0 00002=1 00003=0
S 2 N 5
S 3 N 2 40002=4097 40011=0 40012=0 00001=0 00002=0 00003=0
S 3 N 5
...
@case trace 2
@note Power fails in the first scan of node 5: the request goes by, and the node leaves and joins.
@put node = 5
node = 5
power = ["1 0 0"]
@told Ok
...
F 2.1.1 B 6101
C 5
B
X
B
S 1
E
R
...
LE 5 D1
...
JN 5
...
S 1 N 5 OFF
...
@case never 2 00017
@note A controller that sends is not alone.
@told Refused
refused 19 NotAlone controller 2
@case replay 2
@note No journal at all.
@told Illegal
illegal text 1
"#;

#[test]
fn messages_come_to_their_words(rt: HostRuntime) -> Result<(), Fail> {
    show(&rt, READ2, CASES)
}

/// A plant of two pumps' controllers that read each other's registers, and a host that reads them.
const PUMPS: &str = r#"version = 1
scan_time = 50
[net]
rotations = 2
[[controller]]
node = 2
coils = 16
inputs = 16
input_registers = 1
registers = 40
panel = ["00001","30001","40001","00002"]
orders = ["1 - 1 1"]
[[controller.drop]]
number = 1
modules = ["in 10001", "inw 30001 1", "out 00001"]
script = ["8000 0064", "0000 0065", "0000 0066", "4000 0067"]
[[controller.segment]]
networks = [
"1,1 NO 10001; 2,1 NO 00001; 1,1 V; 1,2 NC 10002; 1,3 CO 00001",
"1,1 NO 00001; 2,1 NO 00001; 1,2 T1.0 9 40001",
"1,1 ADD 5 0 40011; 4,1 ADD 1 0 40013",
"1,1 BLKM 30001 40021 1",
"1,1 H; 1,2 MSTR 40011 40021 1; 3,3 CO 00002"]
[[controller]]
node = 5
registers = 40
panel = ["40012","40014","40021"]
orders = ["1 - - -"]
[[controller.segment]]
networks = ["1,1 ADD 6 0 40011; 4,1 ADD 1 0 40013", "1,1 ADD 2 0 40015",
"1,1 H; 1,2 MSTR 40011 40021 1"]
[[host]]
node = 10
requests = ["1 2 0300000001", "2 2 0800150003"]
"#;

const PUMPS_CASES: &str = r#"
@case run 6
@told Ok
S 1 N 2 00001=1 30001=100 40001=0 00002=0
S 1 N 5 40012=0 40014=0 40021=0
S 2 N 2 00001=1 30001=101 40001=1 00002=1
S 2 N 5 40012=0 40014=1 40021=100
S 3 N 2 00001=1 30001=102 40001=1 00002=0
S 3 N 5 40012=0 40014=1 40021=100
S 4 N 2 00001=0 30001=103 40001=0 00002=1
S 4 N 5 40012=0 40014=1 40021=102
S 5 N 2 00001=0 30001=103 40001=0 00002=0
S 5 N 5 40012=0 40014=1 40021=102
S 6 N 2 00001=0 30001=103 40001=0 00002=1
S 6 N 5 40012=0 40014=1 40021=103
H 10 1 03020000
H 10 2 080015000300020003000200000001000100000000000200000000000000020000000000010000000\
100000000
"#;

#[test]
fn pumps_and_a_host_run(rt: HostRuntime) -> Result<(), Fail> {
    show(&rt, PUMPS, PUMPS_CASES)
}

const MADE: &str = "
@case gen 15 1
@told Ok
controllers 2
solves 2
peers 2
good 2
bad 0
passes 6
coils 6
@case gen 14 20
@told Ok
controllers 16
solves 320
...
";

#[test]
fn made_plants_are_summed_up(rt: HostRuntime) -> Result<(), Fail> {
    show(&rt, "", MADE)
}

/// What two scans of the first plant show.
const PANEL: &str = "S 1 N 2 40002=0 40011=0 40012=0 00001=1 00002=0 00003=0
S 1 N 5
S 2 N 2 40002=0 40011=42 40012=43 00001=0 00002=0 00003=1
S 2 N 5
";

/// The same where the request of node 2 fails at its third transmission.
const LOST: &str = "S 1 N 2 40002=0 40011=0 40012=0 00001=1 00002=0 00003=0
S 1 N 5
S 2 N 2 40002=24833 40011=0 40012=0 00001=0 00002=1 00003=0
S 2 N 5
";

/// How many requests take effect, by the lines of a journal.
fn served(text: &str) -> usize {
    text.split("\nP ").skip(1).count()
}

// Each transmission is lost, or the first two of three; each second one, and what acknowledges the
// others; each acknowledgement, or the first of two.
#[test]
fn lost_transmissions_come_to_their_words(rt: HostRuntime) -> Result<(), Fail> {
    let alloc = rt.alloc();
    for (letters, number, panel) in [
        ("L", 0, LOST),
        ("LLD", 1, PANEL),
        ("LA", 1, LOST),
        ("A", 1, LOST),
        ("AD", 1, PANEL),
    ] {
        let fates = format!(in alloc; "rounds = 1\nfates = \"{letters}\"")?;
        let plant = READ2.replace(alloc, "rounds = 1", fates.as_str())?;
        let told = answered(alloc, "trace 2", plant.as_str())?;
        let is_ok = told.starts_with("Ok\n") && told.ends_with(panel);
        assert!(rt; is_ok && served(told.as_str()) == number, "{told}");
    }
    Ok(())
}

/// The journal of two scans of the first plant.
const JOURNAL: &str = "%JOURNAL
C 2
B
S 1
E
L 2.1.1=5:0300000002
F 2.1.1 G 002a002b
B
S 1
E
C 5
B
S 1
E
P 2.1.1 0300000002 0304002a002b
B
S 1
E
R
PO 2 Q 2.1.1 5 0300000002
SE 2 A
PA 2 0 -
TA 5 Q 2.1.1 0300000002
PO 5 R 2.1.1 0304002a002b
SE 5 A
PA 5 0 -
TA 2 R 2.1.1 0304002a002b
PA 2 0 -
PA 5 0 -
PA 2 1 -
PA 5 1 -
LE 2 E
LE 5 E
%END
";

/// What is told of the journal without the answer of node 5.
const UNANSWERED: &str = "
@case check 2
@told Illegal
illegal J2 5 1
@case flow 1 2
@told Illegal
illegal J2 5 1
";

#[test]
fn journals_are_judged(rt: HostRuntime) -> Result<(), Fail> {
    let alloc = rt.alloc();
    let traced = format!(in alloc; "@case trace 2\n@told Ok\n{JOURNAL}{PANEL}")?;
    show(&rt, READ2, traced.as_str())?;
    let flow = answered(alloc, "flow 1 2", READ2)?;
    let judged = format!(in alloc;
        "@case check 2\n@told Ok\nlegal\n@case replay 2\n@told Ok\n{PANEL}@case flow 1 2\n@told {flow}"
    )?;
    let whole = format!(in alloc; "{READ2}{JOURNAL}")?;
    show(&rt, whole.as_str(), judged.as_str())?;
    let part = whole.replace(alloc, "P 2.1.1 0300000002 0304002a002b\n", "")?;
    show(&rt, part.as_str(), UNANSWERED)
}

/// What is due for the first plant with this front of its journal: it is no document where it ends
/// inside the word with which a journal begins, and else a journal whose first line that is not whole
/// is wrong.
fn due(alloc: Global, front: &str) -> Result<String, AllocError> {
    if !front.is_empty() && front.len() < "%JOURNAL".len() {
        return String::from_str(alloc, "Refused\nrefused 1 BadToml plant\n");
    }
    let line = front.split('\n').count();
    format!(in alloc; "Illegal\nillegal text {line}\n")
}

#[test]
fn journals_that_are_cut(rt: HostRuntime) -> Result<(), Fail> {
    let alloc = rt.alloc();
    for length in 0..JOURNAL.len() {
        let front = JOURNAL.get(..length).ok_or("the front")?;
        let input = format!(in alloc; "{READ2}{front}")?;
        let told = answered(alloc, "check 2", input.as_str())?;
        assert!(rt; told == due(alloc, front)?, "{length}");
    }
    Ok(())
}
