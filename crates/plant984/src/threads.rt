// Live runs of plants in threads: their journals are judged, and their panels replayed.
use crate::calls::{AMPLE, READ2, ended};
use crossbeam_utils::Backoff;
use live_run::{Meet, NoMeet};
use std::alloc::{AllocError, Global};
use std::sync::Wait;
use std::sync::atomic::{AtomicU64, Ordering};
use std::test::Fail;
use std::thread::Threads;
use std::time::Clock;

// How often one looks for the other before it goes on alone.
const MOST_TURNS: u32 = 10_000_000;

// Where a scan of controller 5, inside its gate, and host 1 at the ring wait for each other.
#[derive(Drop)]
struct Meeting {
    solves: AtomicU64,
    entries: AtomicU64,
    later_entries: AtomicU64,
    turns_ran_out: AtomicU64,
}

impl Meeting {
    fn new() -> Meeting {
        Meeting {
            solves: AtomicU64::new(0),
            entries: AtomicU64::new(0),
            later_entries: AtomicU64::new(0),
            turns_ran_out: AtomicU64::new(0),
        }
    }

    // Waits until so many are counted, or the turns ran out.
    fn wait_for(&self, counted: &AtomicU64, number: u64) {
        let backoff = Backoff::new();
        for _ in 0..MOST_TURNS {
            if counted.load(Ordering::SeqCst) >= number {
                return;
            }
            backoff.snooze();
        }
        self.turns_ran_out.store(1, Ordering::SeqCst);
    }

    fn is_in_time(&self) -> bool {
        self.turns_ran_out.load(Ordering::SeqCst) == 0
    }

    // Whether the scan came, and two entries of the host behind it.
    fn has_met(&self) -> bool {
        self.solves.load(Ordering::SeqCst) >= 1 && self.later_entries.load(Ordering::SeqCst) >= 2
    }
}

impl Meet for Meeting {
    fn in_ram(&self, node: u8) {
        if node == 5 && self.solves.fetch_add(1, Ordering::SeqCst) == 0 {
            self.wait_for(&self.later_entries, 2);
        }
    }

    fn ring_entry(&self, node: u8) {
        if node != 1 {
            return;
        }
        if self.solves.load(Ordering::SeqCst) >= 1 {
            self.later_entries.fetch_add(1, Ordering::SeqCst);
        }
        if self.entries.fetch_add(1, Ordering::SeqCst) == 0 {
            self.wait_for(&self.solves, 1);
        }
    }
}

// How a call over these pieces of an input ends.
fn ended_over<M: Meet + Sync, R: Threads + Wait + Clock + Sync>(
    rt: &R,
    alloc: Global,
    line: &str,
    pieces: &[&str],
    meet: &M,
) -> Result<String, AllocError> {
    let mut input = Vec::new(alloc);
    for piece in pieces {
        input.extend_from_slice(piece.as_bytes())?;
    }
    ended(rt, alloc, line, input, &AMPLE, meet)
}

// The journal of a live run of a plant, if it is that of a whole run and its replay is the panel
// behind it; else what is wrong.
fn journal_of<M: Meet + Sync, R: Threads + Wait + Clock + Sync>(
    rt: &R,
    alloc: Global,
    scans: u32,
    plant: &str,
    meet: &M,
) -> Result<String, Fail> {
    let live = format!(in alloc; "live {scans}")?;
    let told = ended_over(rt, alloc, live.as_str(), &[plant], meet)?;
    let text = told.as_str().strip_prefix("Ok\n").ok_or("the status")?;
    let (lines, panel) = text.split_once("%END\n").ok_or("the end")?;
    let journal = [plant, lines, "%END\n"];
    let check = format!(in alloc; "check {scans}")?;
    let judged = ended_over(rt, alloc, check.as_str(), &journal, &NoMeet)?;
    if judged.as_str() != "Ok\nlegal\n" {
        return Err("a legal journal")?;
    }
    let replay = format!(in alloc; "replay {scans}")?;
    let shown = ended_over(rt, alloc, replay.as_str(), &journal, &NoMeet)?;
    if shown.as_str().strip_prefix("Ok\n") != Some(panel) {
        return Err("the panel of the replay")?;
    }
    Ok(String::from_str(alloc, lines)?)
}

// The host asks node 5 while it solves. Its answer is a reply, and the message of node 2 comes to its
// words.
#[test]
fn a_scan_and_a_host_meet(rt: HostRuntime) -> Result<(), Fail> {
    let alloc = rt.alloc();
    let host = "[[host]]\nnode = 1\nrequests = [\"1 5 0300000001\"]\n";
    let plant = format!(in alloc; "{READ2}{host}")?;
    let meeting = Meeting::new();
    let journal = journal_of(&rt, alloc, 2, plant.as_str(), &meeting)?;
    assert!(rt; meeting.is_in_time(), "the turns ran out");
    assert!(rt; meeting.has_met(), "one of the two did not come");
    let is_answered = journal.contains("\nA 1.1.1 R ") && !journal.contains("\nA 1.1.1 B ");
    assert!(rt;
        is_answered && journal.contains("\nF 2.1.1 G "),
        "{journal}"
    );
    Ok(())
}

// A plant of two networks: node 2 reads two registers of node 5 over a bridge.
const BRIDGED: &str = r#"version = 2
bridges = ["1 9 2 12"]
[net]
rounds = 8
[[network]]
number = 1
[[network]]
number = 2
[[controller]]
node = 2
network = 1
coils = 16
registers = 20
panel = ["40002","40011","40012","00001","00002","00003"]
orders = ["1 - - -"]
[[controller.segment]]
networks = ["1,1 ADD 2 0 40001; 4,1 ADD 2 0 40003","1,1 ADD 1 0 40004; 4,1 ADD 9 0 40005",
"1,1 ADD 5 0 40006","1,1 H; 1,2 MSTR 40001 40011 10; 1,3 CO 00001; 2,3 CO 00002; 3,3 CO 00003"]
[[controller]]
node = 5
network = 2
registers = 4
orders = ["1 - - -"]
[[controller.segment]]
networks = ["1,1 ADD 41 1 40001; 4,1 ADD 43 0 40002"]
"#;

// A plant of two pumps' controllers that read each other's registers, and a host that reads them.
const PUMPS: &str = r#"version = 1
scan_time = 50
[net]
rotations = 2
[[controller]]
node = 2
coils = 16
inputs = 16
input_registers = 1
registers = 40
panel = ["00001","30001","40001","00002"]
orders = ["1 - 1 1"]
[[controller.drop]]
number = 1
modules = ["in 10001", "inw 30001 1", "out 00001"]
script = ["8000 0064", "0000 0065", "0000 0066", "4000 0067"]
[[controller.segment]]
networks = [
"1,1 NO 10001; 2,1 NO 00001; 1,1 V; 1,2 NC 10002; 1,3 CO 00001",
"1,1 NO 00001; 2,1 NO 00001; 1,2 T1.0 9 40001",
"1,1 ADD 5 0 40011; 4,1 ADD 1 0 40013",
"1,1 BLKM 30001 40021 1",
"1,1 H; 1,2 MSTR 40011 40021 1; 3,3 CO 00002"]
[[controller]]
node = 5
registers = 40
panel = ["40012","40014","40021"]
orders = ["1 - - -"]
[[controller.segment]]
networks = ["1,1 ADD 6 0 40011; 4,1 ADD 1 0 40013", "1,1 ADD 2 0 40015",
"1,1 H; 1,2 MSTR 40011 40021 1"]
[[host]]
node = 10
requests = ["1 2 0300000001", "2 2 0800150003"]
"#;

#[test]
fn plants_run_live(rt: HostRuntime) -> Result<(), Fail> {
    for plant in [PUMPS, BRIDGED] {
        journal_of(&rt, rt.alloc(), 6, plant, &NoMeet)?;
    }
    Ok(())
}
