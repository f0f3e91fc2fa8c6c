//! Fields that are small enough to be gone through by hand.
use crate::cases::{Case, coil, show};
use field_machine::Asked;
use std::test::Fail;

/// Two buttons that may be pressed at will, one coil for each, and a coil for both.
const BUTTONS: &str = "version = 1
scan_time = 10
[[controller]]
node = 1
coils = 16
inputs = 16
panel = [\"00001\", \"00002\", \"00016\"]
orders = [\"1 - 1 -\"]
[[controller.drop]]
number = 1
modules = [\"in 10001\"]
script = [\"0000\", \"8000\", \"4000\", \"C000\"]
[[controller.segment]]
networks = [
    \"1,1 NO 10001; 1,2 CO 00001; 2,1 NO 10002; 2,2 CO 00002\",
    \"1,1 NO 00001; 1,2 NO 00002; 1,3 CO 00016\",
]
";

/// The same, where each coil keeps the other off.
const INTERLOCK: &str = "version = 1
scan_time = 10
[[controller]]
node = 1
coils = 16
inputs = 16
panel = [\"00001\", \"00002\", \"00016\"]
orders = [\"1 - 1 -\"]
[[controller.drop]]
number = 1
modules = [\"in 10001\"]
script = [\"0000\", \"8000\", \"4000\", \"C000\"]
[[controller.segment]]
networks = [
    \"1,1 NO 10001; 1,2 NC 10002; 1,3 CO 00001; 2,1 NO 10002; 2,2 NC 10001; 2,3 CO 00002\",
    \"1,1 NO 00001; 1,2 NO 00002; 1,3 CO 00016\",
]
";

/// A timer of a second on a button that is held: the clock goes on by 0.1 s at each scan.
const HELD: &str = "version = 1
scan_time = 10
[[controller]]
node = 1
coils = 16
inputs = 16
registers = 1
orders = [\"1 - 1 -\"]
[[controller.drop]]
number = 1
modules = [\"in 10001\"]
script = [\"0000\", \"8000\"]
[[controller.segment]]
networks = [\"1,1 NO 10001; 2,1 NO 10001; 1,2 T0.1 3 40001; 1,3 CO 00016\"]
";

/// A counter that goes on where the button comes, and a drop that may be silent.
const PRESSED: &str = "version = 1
scan_time = 100
[[controller]]
node = 1
coils = 16
inputs = 16
registers = 1
orders = [\"1 - 1 -\"]
[[controller.drop]]
number = 1
modules = [\"in 10001\"]
script = [\"X\", \"8000\", \"0000\"]
[[controller.segment]]
networks = [\"1,1 NO 10001; 2,1 H; 1,2 UCTR 2 40001; 1,3 CO 00016\"]
";

/// A drop that is read twice in a scan, with a coil for an input that changed between.
const TWICE: &str = "version = 1
scan_time = 10
[[controller]]
node = 1
coils = 16
inputs = 16
orders = [\"1 - 1 -\", \"2 - 1 -\"]
[[controller.drop]]
number = 1
modules = [\"in 10001\"]
script = [\"0000\", \"8000\"]
[[controller.segment]]
networks = [\"1,1 NO 10001; 1,2 CO 00001\"]
[[controller.segment]]
networks = [\"1,1 NO 00001; 1,2 NC 10001; 1,3 CO 00016\"]
";

/// The same, with a counter of how often one coil went on.
const COUNTED: &str = "version = 1
scan_time = 10
[[controller]]
node = 1
coils = 16
inputs = 16
registers = 1
panel = [\"00001\", \"00002\", \"00016\"]
orders = [\"1 - 1 -\"]
[[controller.drop]]
number = 1
modules = [\"in 10001\"]
script = [\"0000\", \"8000\", \"4000\", \"C000\"]
[[controller.segment]]
networks = [
    \"1,1 NO 10001; 1,2 NC 10002; 1,3 CO 00001; 2,1 NO 10002; 2,2 NC 10001; 2,3 CO 00002\",
    \"1,1 NO 00001; 1,2 NO 00002; 1,3 CO 00016\",
    \"1,1 NO 00001; 2,1 H; 1,2 UCTR 9999 40001\",
]
";

// Row 4 presses both at once; ways count from 0.
#[test]
fn both_pressed(rt: HostRuntime) -> Result<(), Fail> {
    show(
        &rt,
        &Case {
            plant: BUTTONS,
            asked: coil(16),
            limit: None,
            found: "fails [3]",
        },
    )
}

// For each row one state for each of the ten times at which the clock stands within its second; the
// start is that of the first row at time 0.
#[test]
fn one_keeps_the_other_off(rt: HostRuntime) -> Result<(), Fail> {
    show(
        &rt,
        &Case {
            plant: INTERLOCK,
            asked: coil(16),
            limit: None,
            found: "holds 40",
        },
    )
}

// What is counted does not matter: as many states as without the counter.
#[test]
fn a_counter_costs_nothing(rt: HostRuntime) -> Result<(), Fail> {
    show(
        &rt,
        &Case {
            plant: COUNTED,
            asked: coil(16),
            limit: None,
            found: "holds 40",
        },
    )
}

// Nothing matters to its stop but the clock, which stands at 0 or at a tenth of a second.
#[test]
fn it_never_stops(rt: HostRuntime) -> Result<(), Fail> {
    show(
        &rt,
        &Case {
            plant: INTERLOCK,
            asked: Asked::Stopped,
            limit: Some(1),
            found: "holds 2",
        },
    )
}

// Held for three scans of a tenth of a second each. Within two scans: the start; let go, or held for
// one; let go, or held for one or for two.
#[test]
fn held_for_a_while(rt: HostRuntime) -> Result<(), Fail> {
    show(
        &rt,
        &Case {
            plant: HELD,
            asked: coil(16),
            limit: None,
            found: "fails [1, 1, 1]",
        },
    )?;
    show(
        &rt,
        &Case {
            plant: HELD,
            asked: coil(16),
            limit: Some(2),
            found: "holds 6",
        },
    )
}

// Pressed, let go and pressed again; a silent drop leaves the input as it is.
#[test]
fn pressed_twice(rt: HostRuntime) -> Result<(), Fail> {
    show(
        &rt,
        &Case {
            plant: PRESSED,
            asked: coil(16),
            limit: None,
            found: "fails [1, 2, 1]",
        },
    )
}

// The first exchange of the scan brings row 2, the second row 1.
#[test]
fn read_twice(rt: HostRuntime) -> Result<(), Fail> {
    show(
        &rt,
        &Case {
            plant: TWICE,
            asked: coil(16),
            limit: None,
            found: "fails [1]",
        },
    )
}
