//! Calls of MSTR blocks, which nobody answers on a bench.
use crate::benches::session_of;
use controller_core::Entry;
use mstr_block::MstrResult;
use std::process::Abort;
use std::test::Fail;

/// A controller that shows the error words of two blocks.
const HEAD: &str = "[[controller]]\nnode = 1\nregisters = 100\norders = [\"1 - - -\"]\n\
    panel = [\"40002\", \"40022\"]\n";

/// Statistics of the own node, and a read from another, whose blocks stand in the last two of five
/// networks.
const NETWORKS: &str = "[[controller.segment]]\nnetworks = [\n\
    \"1,1 ADD 3 0 40001; 4,1 ADD 1 0 40003\",\n\
    \"1,1 ADD 2 0 40021; 4,1 ADD 1 0 40023\",\n\
    \"1,1 ADD 1 0 40024; 4,1 ADD 2 0 40025\",\n\
    \"1,1 H; 1,2 MSTR 40001 40011 1\",\n\
    \"1,1 H; 1,2 MSTR 40021 40031 1\",\n]\n";

/// A plant, how many scans it makes, what that writes, how many events there are, and how many of
/// them end a call with the word 6103.
struct Case {
    top: &'static str,
    power: &'static str,
    scans: u32,
    text: &'static str,
    events: usize,
    ended: usize,
}

const CASES: [Case; 5] = [
    // Begin, Solve, End, and then Collect with a Finish for each of the two.
    Case {
        top: "version = 1\n",
        power: "",
        scans: 1,
        text: "S 1 N 1 40002=0 40022=0\n",
        events: 6,
        ended: 2,
    },
    // 6103 is 24835 in decimal. The blocks show it, and start again in the scan after.
    Case {
        top: "version = 1\n",
        power: "",
        scans: 2,
        text: "S 1 N 1 40002=0 40022=0\nS 2 N 1 40002=24835 40022=24835\n",
        events: 9,
        ended: 2,
    },
    Case {
        top: "version = 1\n",
        power: "",
        scans: 3,
        text: "S 1 N 1 40002=0 40022=0\nS 2 N 1 40002=24835 40022=24835\n\
            S 3 N 1 40002=0 40022=0\n",
        events: 15,
        ended: 4,
    },
    // Power fails after the solve in which they started.
    Case {
        top: "version = 1\n",
        power: "power = [\"1 1 0\"]\n",
        scans: 1,
        text: "S 1 N 1 OFF\n",
        events: 6,
        ended: 2,
    },
    // The watchdog stops the controller before the fifth network; there is no End.
    Case {
        top: "version = 1\nwatchdog = 5\n",
        power: "",
        scans: 2,
        text: "S 1 N 1 STOP 1\n",
        events: 4,
        ended: 1,
    },
];

/// How many calls ended because nobody was there.
fn ended_in(history: &[Entry]) -> usize {
    history
        .iter()
        .filter(|entry| {
            matches!(
                entry,
                Entry::Finish {
                    result: MstrResult::Bad(0x6103),
                    ..
                }
            )
        })
        .count()
}

#[test]
fn calls_end_with_nobody_there(rt: HostRuntime) -> Result<(), Fail> {
    let alloc = rt.alloc();
    for case in &CASES {
        let plant = format!(in alloc; "{}{HEAD}{}{NETWORKS}", case.top, case.power)?;
        let session = session_of(alloc, &plant, case.scans, b"")?;
        let history = session.history.as_slice();
        assert!(rt;
            session.text.as_slice() == case.text.as_bytes(),
            "{}",
            case.text
        );
        assert_eq!(rt; history.len(), case.events);
        assert_eq!(rt; ended_in(history), case.ended);
    }
    Ok(())
}
