//! Controllers that are small enough to be gone through by hand.
use crate::cases::{Case, show};
use std::test::Fail;

/// A lamp that is on while a button is pressed.
const LAMP: &str = "version = 1
scan_time = 100
[[controller]]
node = 7
coils = 16
inputs = 16
panel = [\"00001\"]
orders = [\"1 - 1 -\"]
[[controller.drop]]
number = 1
modules = [\"in 10001\"]
script = [\"0000\", \"8000\", \"C000\"]
[[controller.segment]]
networks = [\"1,1 NO 10001; 1,2 CO 00001\"]
";

/// The same but for the order of the script, in which a row stands twice.
const SHUFFLED: &str = "version = 1
scan_time = 100
[[controller]]
node = 7
coils = 16
inputs = 16
panel = [\"00001\"]
orders = [\"1 - 1 -\"]
[[controller.drop]]
number = 1
modules = [\"in 10001\"]
script = [\"C000\", \"0000\", \"C000\", \"8000\"]
[[controller.segment]]
networks = [\"1,1 NO 10001; 1,2 CO 00001\"]
";

/// The second button keeps the lamp off.
const LOCKED: &str = "version = 1
scan_time = 100
[[controller]]
node = 7
coils = 16
inputs = 16
panel = [\"00001\"]
orders = [\"1 - 1 -\"]
[[controller.drop]]
number = 1
modules = [\"in 10001\"]
script = [\"C000\", \"0000\", \"C000\", \"8000\"]
[[controller.segment]]
networks = [\"1,1 NO 10001; 1,2 NC 10002; 1,3 CO 00001\"]
";

/// The lamp follows the button two scans later; the last network is another in `LATE_NOT`.
const LATE: &str = "version = 1
scan_time = 100
[[controller]]
node = 7
coils = 16
inputs = 16
panel = [\"00004\"]
orders = [\"1 - 1 -\"]
[[controller.drop]]
number = 1
modules = [\"in 10001\"]
script = [\"0000\", \"8000\"]
[[controller.segment]]
networks = [
    \"1,1 NO 00003; 1,2 CO 00004\",
    \"1,1 NO 00002; 1,2 CO 00003\",
    \"1,1 NO 10001; 1,2 CO 00002\",
]
";

/// The lamp is on two scans after the button was not pressed.
const LATE_NOT: &str = "version = 1
scan_time = 100
[[controller]]
node = 7
coils = 16
inputs = 16
panel = [\"00004\"]
orders = [\"1 - 1 -\"]
[[controller.drop]]
number = 1
modules = [\"in 10001\"]
script = [\"0000\", \"8000\"]
[[controller.segment]]
networks = [
    \"1,1 NO 00003; 1,2 CO 00004\",
    \"1,1 NO 00002; 1,2 CO 00003\",
    \"1,1 NC 10001; 1,2 CO 00002\",
]
";

/// The lamp is on once the button was pressed twice.
const TWICE: &str = "version = 1
scan_time = 100
[[controller]]
node = 7
coils = 16
inputs = 16
registers = 1
panel = [\"00001\"]
orders = [\"1 - 1 -\"]
[[controller.drop]]
number = 1
modules = [\"in 10001\"]
script = [\"0000\", \"8000\"]
[[controller.segment]]
networks = [\"1,1 NO 10001; 2,1 H; 1,2 UCTR 2 40001; 1,3 CO 00001\"]
";

/// The lamp is on once the button was pressed three times.
const THRICE: &str = "version = 1
scan_time = 100
[[controller]]
node = 7
coils = 16
inputs = 16
registers = 1
panel = [\"00001\"]
orders = [\"1 - 1 -\"]
[[controller.drop]]
number = 1
modules = [\"in 10001\"]
script = [\"0000\", \"8000\"]
[[controller.segment]]
networks = [\"1,1 NO 10001; 2,1 H; 1,2 UCTR 3 40001; 1,3 CO 00001\"]
";

/// The lamp's ladder, which the watchdog stops in the first scan.
const STOPPED: &str = "version = 1
scan_time = 100
watchdog = 1
[[controller]]
node = 7
coils = 16
inputs = 16
panel = [\"00001\"]
orders = [\"1 - 1 -\"]
[[controller.drop]]
number = 1
modules = [\"in 10001\"]
script = [\"0000\", \"8000\", \"C000\"]
[[controller.segment]]
networks = [\"1,1 NO 10001; 1,2 CO 00001\"]
";

/// The panel shows the button, which is read once in a scan.
const ONCE: &str = "version = 1
scan_time = 100
[[controller]]
node = 7
coils = 16
inputs = 16
panel = [\"10001\"]
orders = [\"1 - 1 -\"]
[[controller.drop]]
number = 1
modules = [\"in 10001\"]
script = [\"0000\", \"8000\"]
[[controller.segment]]
networks = [\"1,1 NO 10001; 1,2 CO 00001\"]
";

/// The panel shows the button, which is read a second time before the scan ends.
const AGAIN: &str = "version = 1
scan_time = 100
[[controller]]
node = 7
coils = 16
inputs = 16
panel = [\"10001\"]
orders = [\"1 - 1 -\", \"2 - 1 -\"]
[[controller.drop]]
number = 1
modules = [\"in 10001\"]
script = [\"0000\", \"8000\"]
[[controller.segment]]
networks = [\"1,1 NO 10001; 1,2 CO 00001\"]
[[controller.segment]]
networks = [\"1,1 NO 10001; 1,2 CO 00002\"]
";

// No button, the first, both; the start is as with none.
#[test]
fn one_ladder_does_the_same_twice(rt: HostRuntime) -> Result<(), Fail> {
    let case = Case {
        old: LAMP,
        new: LAMP,
        depth: None,
        told: "holds 3\n",
    };
    show(&rt, &case)
}

#[test]
fn the_order_of_a_script_does_not_matter(rt: HostRuntime) -> Result<(), Fail> {
    let case = Case {
        old: LAMP,
        new: SHUFFLED,
        depth: None,
        told: "holds 3\n",
    };
    show(&rt, &case)
}

// Both buttons are the third row of the old script.
#[test]
fn a_contact_tells_them_apart_in_the_first_scan(rt: HostRuntime) -> Result<(), Fail> {
    let case = Case {
        old: LAMP,
        new: LOCKED,
        depth: None,
        told: "fails 1\nI 1 1 3\nS 1 N 7 00001=1\nS 1 N 7 00001=0\n",
    };
    show(&rt, &case)
}

// They are the first row of this one.
#[test]
fn rows_are_those_of_the_old_script(rt: HostRuntime) -> Result<(), Fail> {
    let case = Case {
        old: LOCKED,
        new: LAMP,
        depth: None,
        told: "fails 1\nI 1 1 1\nS 1 N 7 00001=0\nS 1 N 7 00001=1\n",
    };
    show(&rt, &case)
}

// What the button does in the first scan the panels show in the third.
#[test]
fn a_difference_shows_after_three_scans(rt: HostRuntime) -> Result<(), Fail> {
    let case = Case {
        old: LATE,
        new: LATE_NOT,
        depth: None,
        told: "fails 3\nI 1 1 1\nI 2 1 1\nI 3 1 1\nS 3 N 7 00004=0\nS 3 N 7 00004=1\n",
    };
    show(&rt, &case)
}

// The start, two pairs after one scan, and four after two.
#[test]
fn a_depth_hides_the_difference(rt: HostRuntime) -> Result<(), Fail> {
    let case = Case {
        old: LATE,
        new: LATE_NOT,
        depth: Some(2),
        told: "holds 7 to 2\n",
    };
    show(&rt, &case)
}

// The button is pressed, let go and pressed again.
#[test]
fn another_preset_tells_counters_apart(rt: HostRuntime) -> Result<(), Fail> {
    let case = Case {
        old: TWICE,
        new: THRICE,
        depth: None,
        told: "fails 3\nI 1 1 2\nI 2 1 1\nI 3 1 2\nS 3 N 7 00001=1\nS 3 N 7 00001=0\n",
    };
    show(&rt, &case)
}

#[test]
fn the_watchdog_stops_one_alone(rt: HostRuntime) -> Result<(), Fail> {
    let case = Case {
        old: LAMP,
        new: STOPPED,
        depth: None,
        told: "fails 1\nI 1 1 1\nS 1 N 7 00001=0\nS 1 N 7 STOP 1\n",
    };
    show(&rt, &case)
}

// The start, and the stop in the first scan with each row: the inputs differ.
#[test]
fn both_stop_with_one_code(rt: HostRuntime) -> Result<(), Fail> {
    let case = Case {
        old: STOPPED,
        new: STOPPED,
        depth: None,
        told: "holds 4\n",
    };
    show(&rt, &case)
}

// Both read the second row at first, and the new one the first row then.
#[test]
fn one_of_them_reads_twice(rt: HostRuntime) -> Result<(), Fail> {
    let case = Case {
        old: ONCE,
        new: AGAIN,
        depth: None,
        told: "fails 1\nI 1 1 2\nI 1 1 1\nS 1 N 7 10001=1\nS 1 N 7 10001=0\n",
    };
    show(&rt, &case)
}

#[test]
fn the_old_one_reads_twice(rt: HostRuntime) -> Result<(), Fail> {
    let case = Case {
        old: AGAIN,
        new: ONCE,
        depth: None,
        told: "fails 1\nI 1 1 2\nI 1 1 1\nS 1 N 7 10001=0\nS 1 N 7 10001=1\n",
    };
    show(&rt, &case)
}
