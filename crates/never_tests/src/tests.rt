//! Two pumps that are small enough to be gone through by hand.
use crate::cases::{Case, both, show};
use field_machine::Asked;
use std::test::Fail;

/// Two pumps, each started by a button and held by its own coil. The field presses one button at
/// a time.
const PUMPS: &str = "version = 1
scan_time = 10
[[controller]]
node = 7
coils = 16
inputs = 16
panel = [\"00001\", \"00002\", \"00016\"]
orders = [\"1 - 1 -\"]
[[controller.drop]]
number = 1
modules = [\"in 10001\"]
script = [\"0000\", \"8000\", \"4000\"]
[[controller.segment]]
networks = [
    \"1,1 NO 10001; 2,1 NO 00001; 1,1 V; 1,2 CO 00001\",
    \"1,1 NO 10002; 2,1 NO 00002; 1,1 V; 1,2 CO 00002\",
    \"1,1 NO 00001; 1,2 NO 00002; 1,3 CO 00016\",
]
";

/// The same, where each pump keeps the other off.
const INTERLOCKED: &str = "version = 1
scan_time = 10
[[controller]]
node = 7
coils = 16
inputs = 16
panel = [\"00001\", \"00002\", \"00016\"]
orders = [\"1 - 1 -\"]
[[controller.drop]]
number = 1
modules = [\"in 10001\"]
script = [\"0000\", \"8000\", \"4000\"]
[[controller.segment]]
networks = [
    \"1,1 NO 10001; 2,1 NO 00001; 1,1 V; 1,2 NC 00002; 1,3 CO 00001\",
    \"1,1 NO 10002; 2,1 NO 00002; 1,1 V; 1,2 NC 00001; 1,3 CO 00002\",
    \"1,1 NO 00001; 1,2 NO 00002; 1,3 CO 00016\",
]
";

/// A button that is read twice in a scan. The second network of the first segment is left out where
/// it is off, that of the second segment where it is on. All six networks are too many for the
/// watchdog.
const LONG: &str = "version = 1
scan_time = 100
watchdog = 6
[[controller]]
node = 1
coils = 16
inputs = 16
panel = [\"10001\"]
orders = [\"1 - 2 -\", \"2 - 2 -\"]
[[controller.drop]]
number = 2
modules = [\"in 10001\"]
script = [\"0000\", \"8000\"]
[[controller.segment]]
networks = [
    \"1,1 NC 10001; 1,2 SKP 2\",
    \"1,1 NO 10001; 1,2 CO 00001\",
    \"1,1 NO 10001; 1,2 CO 00002\",
]
[[controller.segment]]
networks = [
    \"1,1 NO 10001; 1,2 SKP 2\",
    \"1,1 NO 10001; 1,2 CO 00003\",
    \"1,1 NO 10001; 1,2 CO 00004\",
]
";

// Pump 1 is started in the first scan, pump 2 in the second.
#[test]
fn both_pumps_run_in_the_second_scan(rt: HostRuntime) -> Result<(), Fail> {
    show(
        &rt,
        &Case {
            plant: PUMPS,
            asked: both(),
            depth: None,
            told: "fails 2\nI 1 1 2\nI 2 1 3\nS 1 N 7 00001=1 00002=0 00016=0\n\
                S 2 N 7 00001=1 00002=1 00016=1\n",
        },
    )
}

// The start, and one state for each row.
#[test]
fn both_pumps_never_run_within_one_scan(rt: HostRuntime) -> Result<(), Fail> {
    show(
        &rt,
        &Case {
            plant: PUMPS,
            asked: both(),
            depth: Some(1),
            told: "holds 4 to 1\n",
        },
    )
}

// No pump runs while no button is pressed, or one of them runs with any row: seven, for each of the
// ten times at which the clock stands within its second.
#[test]
fn pumps_that_keep_each_other_off_never_run_together(rt: HostRuntime) -> Result<(), Fail> {
    show(
        &rt,
        &Case {
            plant: INTERLOCKED,
            asked: both(),
            depth: None,
            told: "holds 70\n",
        },
    )
}

// No pump and no button can matter to a stop, which leaves the ten times of the clock.
#[test]
fn pumps_do_not_matter_to_a_stop(rt: HostRuntime) -> Result<(), Fail> {
    show(
        &rt,
        &Case {
            plant: INTERLOCKED,
            asked: Asked::Stopped,
            depth: None,
            told: "holds 10\n",
        },
    )
}

// With the button on at the first exchange and off at the second no network is left.
#[test]
fn the_watchdog_stops_it(rt: HostRuntime) -> Result<(), Fail> {
    show(
        &rt,
        &Case {
            plant: LONG,
            asked: Asked::Stopped,
            depth: Some(2000),
            told: "fails 1\nI 1 2 2\nI 1 2 1\nS 1 N 1 STOP 1\n",
        },
    )
}
