//! A standby that takes all scans of a primary, and one that goes on from some of them.
use crate::primaries::{Pair, answer, pair_of, part_of};
use hot_standby::Taken;
use panel_session::BenchEnd;
use std::test::Fail;

/// A coil that follows another; power fails in the second scan, and the third is dark.
const FAILING: &str = "version = 1\n[[controller]]\nnode = 1\ncoils = 16\ninputs = 16\n\
    registers = 100\norders = [\"1 - - -\"]\npanel = [\"00001\"]\npower = [\"2 0 1\"]\n\
    [[controller.segment]]\nnetworks = [\"1,1 NO 00002; 1,2 CO 00001\"]\n";

/// The watchdog stops the controller before its first network.
const STOPPING: &str = "version = 1\nwatchdog = 1\n[[controller]]\nnode = 1\ncoils = 16\n\
    inputs = 16\nregisters = 100\norders = [\"1 - - -\"]\npanel = [\"00001\"]\n\
    [[controller.segment]]\nnetworks = [\"1,1 NO 00002; 1,2 CO 00001\"]\n";

/// It turns the coil on, asks to turn it off without power, and reads the coil that follows.
const ASKED: &str = ":01050001FF00FA\r\n:010500010000F9\r\n:010100000001FD\r\n";

/// A plant, how many scans a primary makes, how many of them a standby takes, and the panel line
/// of the scan that it makes then; none where it has stopped or made all.
struct Case {
    plant: &'static str,
    scans: u32,
    taken: u32,
    line: &'static str,
}

const CASES: [Case; 7] = [
    Case {
        plant: FAILING,
        scans: 4,
        taken: 0,
        line: "S 1 N 1 00001=0\n",
    },
    Case {
        plant: FAILING,
        scans: 4,
        taken: 1,
        line: "S 2 N 1 OFF\n",
    },
    Case {
        plant: FAILING,
        scans: 4,
        taken: 2,
        line: "S 3 N 1 OFF\n",
    },
    Case {
        plant: FAILING,
        scans: 4,
        taken: 3,
        line: "S 4 N 1 00001=1\n",
    },
    Case {
        plant: FAILING,
        scans: 4,
        taken: 4,
        line: "",
    },
    Case {
        plant: STOPPING,
        scans: 2,
        taken: 0,
        line: "S 1 N 1 STOP 1\n",
    },
    Case {
        plant: STOPPING,
        scans: 2,
        taken: 1,
        line: "",
    },
];

#[test]
fn goes_on(rt: HostRuntime) -> Result<(), Fail> {
    for case in &CASES {
        let Pair { made, mut standby } = pair_of(rt.alloc(), case.plant, case.scans, ASKED)?;
        for scan in 1..=case.taken {
            let part = part_of(rt.alloc(), made.as_slice(), scan)?;
            assert!(rt;
                answer(&mut standby, scan, part) == Some(Ok(Taken::New)),
                "scan {scan}"
            );
        }
        if standby.has_failed() {
            return Err("a standby")?;
        }
        assert_eq!(rt; standby.scans(), case.taken);
        let mut bench = standby.into_bench();
        let line = match bench.scan()? {
            BenchEnd::Done => bench.line()?,
            BenchEnd::Ended | BenchEnd::Stopped(_) => Vec::new(rt.alloc()),
        };
        assert!(rt; line.as_slice() == case.line.as_bytes(), "{}", case.line);
    }
    Ok(())
}
