//! Frames that come where there is no power, and after a stop.
use crate::benches::{Case, show};
use std::test::Fail;

/// A coil that follows another; power fails in the second scan, and the third is dark.
const FAILING: &str = "version = 1\n[[controller]]\nnode = 1\ncoils = 16\ninputs = 16\n\
    registers = 100\norders = [\"1 - - -\"]\npanel = [\"00001\"]\npower = [\"2 0 1\"]\n\
    [[controller.segment]]\nnetworks = [\"1,1 NO 00002; 1,2 CO 00001\"]\n";

/// It turns the coil on, asks to turn it off without power, and asks for something unknown
/// without power; then it reads the coil that follows.
const ASKED: &str = ":01050001FF00FA\r\n:010500010000F9\r\n:0107F8\r\n:010100000001FD\r\n";

const OFF: [Case; 3] = [
    Case {
        plant: FAILING,
        scans: 4,
        stream: ASKED,
        text: "S 1 N 1 00001=0\n:01050001FF00FA\r\nS 2 N 1 OFF\nS 3 N 1 OFF\nS 4 N 1 00001=1\n\
            :01010101FC\r\n",
    },
    // What is left is served after the last scan, also where there is no power then.
    Case {
        plant: FAILING,
        scans: 2,
        stream: ASKED,
        text: "S 1 N 1 00001=0\n:01050001FF00FA\r\nS 2 N 1 OFF\n",
    },
    Case {
        plant: FAILING,
        scans: 3,
        stream: ASKED,
        text: "S 1 N 1 00001=0\n:01050001FF00FA\r\nS 2 N 1 OFF\nS 3 N 1 OFF\n",
    },
];

#[test]
fn no_reply_without_power(rt: HostRuntime) -> Result<(), Fail> {
    for case in &OFF {
        show(&rt, case)?;
    }
    Ok(())
}

/// The same coils; the watchdog stops the controller before its first network.
const STOPPING: &str = "version = 1\nwatchdog = 1\n[[controller]]\nnode = 1\ncoils = 16\n\
    inputs = 16\nregisters = 100\norders = [\"1 - - -\"]\npanel = [\"00001\"]\n\
    [[controller.segment]]\nnetworks = [\"1,1 NO 00002; 1,2 CO 00001\"]\n";

const STOPPED: [Case; 2] = [
    Case {
        plant: STOPPING,
        scans: 2,
        stream: "",
        text: "S 1 N 1 STOP 1\n",
    },
    Case {
        plant: STOPPING,
        scans: 2,
        stream: ":01050001FF00FA\r\n:00050000FF00FC\r\n:010100000002FC\r\n",
        text: "S 1 N 1 STOP 1\n:01050001FF00FA\r\n:01010103FA\r\n",
    },
];

#[test]
fn replies_behind_a_stop(rt: HostRuntime) -> Result<(), Fail> {
    for case in &STOPPED {
        show(&rt, case)?;
    }
    Ok(())
}
