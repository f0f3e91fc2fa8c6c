// Calls of the program, over sources and sinks in memory.
use crate::serial::INPUT_LIMIT;
use crate::top::{exit_of, plant_top};
use command_answers::Status;
use live_run::{Meet, NoMeet};
use plant_io::{MemSink, MemSource};
use std::alloc::{AllocError, AllocGlobal, Global};
use std::process::{Abort, ExitCode};
use std::sync::Wait;
use std::test::Fail;
use std::thread::Threads;
use std::time::Clock;

fn words_of(alloc: Global, line: &str) -> Result<Vec<String>, AllocError> {
    let mut words = Vec::new(alloc);
    for word in line.split_whitespace() {
        words.push(String::from_str(alloc, word)?)?;
    }
    Ok(words)
}

/// How many bytes a read gives and a write takes at most, and the numbers of the read and of the
/// write that fail; those of none are 0.
#[derive(Clone, Copy)]
pub struct Medium {
    piece: usize,
    failing_read: u64,
    failing_write: u64,
}

/// Gives and takes much at a time, and nothing fails.
pub const AMPLE: Medium = Medium {
    piece: 65_536,
    failing_read: 0,
    failing_write: 0,
};

/// How the top call ends: the name of its status, and below it all that it wrote.
pub fn ended<M: Meet + Sync, R: Threads + Wait + Clock + Sync>(
    rt: &R,
    alloc: Global,
    line: &str,
    input: Vec<u8>,
    medium: &Medium,
    meet: &M,
) -> Result<String, AllocError> {
    let words = words_of(alloc, line)?;
    let piece = medium.piece.max(1);
    let reads = Vec::from_slice(alloc, &[medium.failing_read])?;
    let writes = Vec::from_slice(alloc, &[medium.failing_write])?;
    let mut source = MemSource::new(input, piece, reads);
    let mut sink = MemSink::new(alloc, piece, writes);
    let status = plant_top(rt, alloc, &words, &mut source, &mut sink, meet);
    let text = String::from_utf8_lossy(alloc, sink.bytes())?;
    format!(in alloc; "{status:?}\n{text}")
}

/// A contact and a coil.
const COIL: &str = r#"version = 1
[[controller]]
node = 1
coils = 16
inputs = 16
registers = 100
orders = ["1 - - -"]
panel = ["00001"]
[[controller.segment]]
networks = ["1,1 NC 10001; 1,2 CO 00001"]
"#;

// Calls over that plant: three numbers of the medium, and the words; below them the status, and what
// is written. A backslash takes the end of its line away.
const CALLS: &str = r#"
@call 7 0 0: run 1
Ok
S 1 N 1 00001=1
@call 7 0 0: run -- 1
Ok
S 1 N 1 00001=1
@call 7 0 0: run 1 --
Ok
S 1 N 1 00001=1
@call 7 0 0: never 1 00001
Found
fails 1
S 1 N 1 00001=1
@call 7 1 0: run 1
ReadFault
@call 7 0 1: run 1
WriteFault
@call 7 0 3: run 1
WriteFault
S 1 N 1 00001=\
"#;

const CALLS_WITHOUT_PLANT: &str = r#"
@call 7 0 0: run 1
Refused
refused 2 BadKey plant
@call 7 0 2: run 1
WriteFault
refused\
@call 7 1 0: gen 15 1
Ok
controllers 2
solves 2
peers 2
good 2
bad 0
passes 6
coils 6
"#;

/// A plant whose node 2 reads two registers of node 5, which are 42 and 43.
pub const READ2: &str = r#"version = 1
[net]
rotations = 2
rounds = 1
[[controller]]
node = 2
coils = 16
registers = 20
panel = ["40002","40011","40012","00001","00002","00003"]
orders = ["1 - - -"]
[[controller.segment]]
networks = ["1,1 ADD 2 0 40001; 4,1 ADD 2 0 40003","1,1 ADD 1 0 40004; 4,1 ADD 5 0 40005",
"1,1 H; 1,2 MSTR 40001 40011 10; 1,3 CO 00001; 2,3 CO 00002; 3,3 CO 00003"]
[[controller]]
node = 5
registers = 4
orders = ["1 - - -"]
[[controller.segment]]
networks = ["1,1 ADD 41 1 40001; 4,1 ADD 43 0 40002"]
"#;

const READ2_CALLS: &str = r#"
@call 1 0 0: trace 2
Ok
%JOURNAL
C 2
B
S 1
E
L 2.1.1=5:0300000002
F 2.1.1 G 002a002b
B
S 1
E
C 5
B
S 1
E
P 2.1.1 0300000002 0304002a002b
B
S 1
E
R
PO 2 Q 2.1.1 5 0300000002
SE 2 A
PA 2 0 -
TA 5 Q 2.1.1 0300000002
PO 5 R 2.1.1 0304002a002b
SE 5 A
PA 5 0 -
TA 2 R 2.1.1 0304002a002b
PA 2 0 -
PA 5 0 -
PA 2 1 -
PA 5 1 -
LE 2 E
LE 5 E
%END
S 1 N 2 40002=0 40011=0 40012=0 00001=1 00002=0 00003=0
S 1 N 5
S 2 N 2 40002=0 40011=42 40012=43 00001=0 00002=0 00003=1
S 2 N 5
@call 1 2 0: trace 2
ReadFault
@call 7 0 3: trace 2
WriteFault
%JOURNAL
C 2
B\
@call 7 0 0: check 2
Illegal
illegal text 1
"#;

fn number(word: Option<&str>) -> u64 {
    match word {
        Some(word) => word.parse::<u64>().unwrap_or(0),
        None => 0,
    }
}

fn medium_of(text: &str) -> Medium {
    let mut words = text.split_whitespace();
    let piece = number(words.next());
    let failing_read = number(words.next());
    let failing_write = number(words.next());
    Medium {
        piece: usize::try_from(piece).unwrap_or(1),
        failing_read,
        failing_write,
    }
}

// Whether a call over this input ends as is told below it.
fn holds<R: Threads + Wait + Clock + Sync>(
    rt: &R,
    alloc: Global,
    input: &str,
    call: &str,
) -> Result<bool, Fail> {
    let (head, told) = call.split_once('\n').ok_or("a call")?;
    let (medium, line) = head.split_once(": ").ok_or("the words")?;
    let told = told.replace(alloc, "\\\n", "")?;
    let input = Vec::from_slice(alloc, input.as_bytes())?;
    Ok(ended(rt, alloc, line, input, &medium_of(medium), &NoMeet)? == told)
}

#[test]
fn each_call_ends_as_it_is_told(rt: HostRuntime) -> Result<(), Fail> {
    for (input, calls) in [
        (COIL, CALLS),
        ("", CALLS_WITHOUT_PLANT),
        (READ2, READ2_CALLS),
    ] {
        for call in calls.split("@call ").skip(1) {
            assert!(rt; holds(&rt, rt.alloc(), input, call)?, "{call}");
        }
    }
    Ok(())
}

#[test]
fn ends_with_the_number_of_its_status(rt: HostRuntime) -> Result<(), Fail> {
    let alloc = rt.alloc();
    let words = words_of(alloc, "run 1")?;
    let mut source = MemSource::new(Vec::new(alloc), 7, Vec::new(alloc));
    let mut sink = MemSink::new(alloc, 7, Vec::new(alloc));
    let code = exit_of(&rt, alloc, &words, &mut source, &mut sink, &NoMeet);
    assert_eq!(rt; code, ExitCode::from(5));
    Ok(())
}

// Whether the words of the line are told to be no command, and a run behind them still finds the
// whole input.
fn touches_nothing<R: Threads + Wait + Clock + Sync>(
    rt: &R,
    alloc: Global,
    line: &str,
) -> Result<bool, AllocError> {
    let (words, run) = (words_of(alloc, line)?, words_of(alloc, "run 1")?);
    let input = Vec::from_slice(alloc, COIL.as_bytes())?;
    let mut source = MemSource::new(input, 7, Vec::new(alloc));
    let mut sink = MemSink::new(alloc, 7, Vec::new(alloc));
    let first = plant_top(rt, alloc, &words, &mut source, &mut sink, &NoMeet);
    let second = plant_top(rt, alloc, &run, &mut source, &mut sink, &NoMeet);
    let is_usage = first == Status::Usage && second == Status::Ok;
    Ok(is_usage && sink.bytes() == b"S 1 N 1 00001=1\n".as_slice())
}

// Words that are no command, with one line for each; the first line has none.
const NO_COMMANDS: &str = "
run
run 0
run 01
run -5
run +1
run 2001
run 4294967297
run 1 1
run -- -- 1
run -- 1 --
run --
-- run 1
run -h
run -V
run --help 1
walk 1
Run 1
1
run 1x
session 1
session 0 1
session 65 1
session 1 2001
session 01 1
flow 1
flow 0 1
flow 2 1
flow 01 1
flow 1 2001
flow 1 1 1
standby
standby 1 1
standby 0 1 1
standby 65 1 1
standby 1 0 1
standby 1 2 1
standby 1 01 1
standby 1 1 01
standby 1 1 2001
standby 1 2001 2001
standby 1 1 1 1
never
never 1
never 0 00001
never 65 00001
never 1 0001
never 1 000001
never 1 00000
never 1 10000
never 1 20001
never 1 30001
never 1 40001
never 1 0000x
never 1 stop
never 1 STOPS
never 1 00001 0
never 1 00001 01
never 1 00001 2001
never 1 00001 1 1
never STOP 1
cop
cop 0
cop 01
cop 2001
cop 1 1
cop -- -- 1
Cop 1
same
same 0
same 65
same 01
same 1 0
same 1 01
same 1 2001
same 1 1 1
same 1 00001
same STOP
live
live 0
live 01
live -5
live 2001
live 1 1
live -- -- 1
-- live 1
Live 1
--help";

#[test]
fn other_words_touch_nothing(rt: HostRuntime) -> Result<(), Fail> {
    for line in NO_COMMANDS.split('\n') {
        assert!(rt; touches_nothing(&rt, rt.alloc(), line)?, "{line}");
    }
    Ok(())
}

// Behind the plant stands a comment.
#[test]
fn stops_behind_the_limit(rt: HostRuntime) -> Result<(), Fail> {
    let alloc = rt.alloc();
    for (length, told) in [
        (INPUT_LIMIT, "Ok\nS 1 N 1 00001=1\n"),
        (INPUT_LIMIT + 1, "TooLong\n"),
    ] {
        let mut input = Vec::from_slice(alloc, COIL.as_bytes())?;
        input.resize(length, b'#')?;
        let end = ended(&rt, alloc, "run 1", input, &AMPLE, &NoMeet)?;
        assert!(rt; end.as_str() == told, "{length}");
    }
    Ok(())
}
