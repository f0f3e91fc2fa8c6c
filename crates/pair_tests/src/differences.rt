//! What keeps controllers from being compared.
use crate::cases::differ;
use same_text::Difference;
use std::test::Fail;

/// Two drops.
const TWO: &str = "version = 1
scan_time = 100
[[controller]]
node = 7
coils = 16
inputs = 32
panel = [\"00001\", \"10001\"]
orders = [\"1 - 3 -\"]
[[controller.drop]]
number = 3
modules = [\"in 10001\"]
script = [\"0000\", \"8000\", \"X\"]
[[controller.drop]]
number = 9
modules = [\"in 10017\"]
script = [\"0000\"]
[[controller.segment]]
networks = [\"1,1 NO 10001; 1,2 CO 00001\"]
";

/// The same drops, listed the other way round.
const ROUND: &str = "version = 1
scan_time = 100
watchdog = 7
[[controller]]
node = 7
coils = 32
inputs = 32
registers = 5
panel = [\"00001\", \"10001\"]
orders = [\"1 - 9 -\"]
[[controller.drop]]
number = 9
modules = [\"in 10017\"]
script = [\"0000\", \"0000\"]
[[controller.drop]]
number = 3
modules = [\"in 10001\"]
script = [\"X\", \"8000\", \"0000\", \"8000\"]
[[controller.segment]]
networks = [\"1,1 NC 10001; 1,2 CO 00001\"]
";

/// Another panel, another scan time, another drop.
const PANEL: &str = "version = 1
scan_time = 10
[[controller]]
node = 7
coils = 16
inputs = 32
panel = [\"10001\", \"00001\"]
orders = [\"1 - 3 -\"]
[[controller.drop]]
number = 3
modules = [\"in 10001\"]
script = [\"0000\"]
[[controller.segment]]
networks = [\"1,1 NO 10001; 1,2 CO 00001\"]
";

/// Another scan time, another drop.
const TIME: &str = "version = 1
scan_time = 10
[[controller]]
node = 7
coils = 16
inputs = 32
panel = [\"00001\", \"10001\"]
orders = [\"1 - 3 -\"]
[[controller.drop]]
number = 3
modules = [\"in 10001\"]
script = [\"0000\"]
[[controller.segment]]
networks = [\"1,1 NO 10001; 1,2 CO 00001\"]
";

/// Drop 3 has other modules, and drop 9 one row more; drop 9 stands first.
const MODULES: &str = "version = 1
scan_time = 100
[[controller]]
node = 7
coils = 16
inputs = 32
panel = [\"00001\", \"10001\"]
orders = [\"1 - 3 -\"]
[[controller.drop]]
number = 9
modules = [\"in 10017\"]
script = [\"0000\", \"8000\"]
[[controller.drop]]
number = 3
modules = [\"in 10017\"]
script = [\"0000\", \"8000\", \"X\"]
[[controller.segment]]
networks = [\"1,1 NO 10001; 1,2 CO 00001\"]
";

/// Drop 3 never is silent.
const ROWS: &str = "version = 1
scan_time = 100
[[controller]]
node = 7
coils = 16
inputs = 32
panel = [\"00001\", \"10001\"]
orders = [\"1 - 3 -\"]
[[controller.drop]]
number = 3
modules = [\"in 10001\"]
script = [\"0000\", \"8000\"]
[[controller.drop]]
number = 9
modules = [\"in 10017\"]
script = [\"0000\"]
[[controller.segment]]
networks = [\"1,1 NO 10001; 1,2 CO 00001\"]
";

/// There is no drop 9, and a drop 4.
const FOUR: &str = "version = 1
scan_time = 100
[[controller]]
node = 7
coils = 16
inputs = 32
panel = [\"00001\", \"10001\"]
orders = [\"1 - 3 -\"]
[[controller.drop]]
number = 3
modules = [\"in 10001\"]
script = [\"0000\", \"8000\", \"X\"]
[[controller.drop]]
number = 4
modules = [\"in 10017\"]
script = [\"0000\"]
[[controller.segment]]
networks = [\"1,1 NO 10001; 1,2 CO 00001\"]
";

#[test]
fn nothing_keeps_them_apart(rt: HostRuntime) -> Result<(), Fail> {
    differ(&rt, TWO, ROUND, None)
}

#[test]
fn panels_come_first(rt: HostRuntime) -> Result<(), Fail> {
    differ(&rt, TWO, PANEL, Some(Difference::Panel))
}

#[test]
fn scan_times_come_second(rt: HostRuntime) -> Result<(), Fail> {
    differ(&rt, TWO, TIME, Some(Difference::ScanTime))
}

#[test]
fn the_drop_of_the_least_number_counts(rt: HostRuntime) -> Result<(), Fail> {
    differ(&rt, TWO, MODULES, Some(Difference::Drop(3)))
}

#[test]
fn a_set_of_rows_has_one_less(rt: HostRuntime) -> Result<(), Fail> {
    differ(&rt, TWO, ROWS, Some(Difference::Drop(3)))
}

#[test]
fn a_set_of_rows_has_one_more(rt: HostRuntime) -> Result<(), Fail> {
    differ(&rt, ROWS, TWO, Some(Difference::Drop(3)))
}

#[test]
fn a_drop_is_there_in_one_alone(rt: HostRuntime) -> Result<(), Fail> {
    differ(&rt, TWO, FOUR, Some(Difference::Drop(4)))
}
