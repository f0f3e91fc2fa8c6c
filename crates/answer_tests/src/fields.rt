//! What controllers do whatever their field gives them.
use crate::cases::show;
use std::test::Fail;

/// A coil that follows another, which nothing turns on.
const PLANT: &str = r#"version = 1
scan_time = 100
[[controller]]
node = 1
coils = 16
inputs = 16
registers = 100
panel = ["00001"]
orders = ["1 - - -"]
[[controller.segment]]
networks = ["1,1 NO 00002; 1,2 CO 00001"]
"#;

const CASES: &str = r#"
@case never 1 00001
@told Ok
holds 1
@case never 1 -- 00001 5
@told Ok
holds 1 to 5
@case never 1 STOP
@told Ok
holds 1
@case never 1 10016 2000
@told Ok
holds 1 to 2000
@case never 2 00001
@told Refused
refused 17 NoController never
@case never 1 00017
@told Refused
refused 20 NoReference never
@case never 1 19999
@told Refused
refused 20 NoReference never
@case never 1 00001
@note A scan takes a tenth of a second, so ten clocks are not alike.
@put scan_time = 100
scan_time = 10
@told Ok
holds 10
@case never 1 00017
@note Power that fails comes before a reference that is not there.
@put orders = ["1 - - -"]
orders = ["1 - - -"]
power = ["1 0 1"]
@told Refused
refused 19 NotAlone controller 1
@case never 1 STOP
@note The watchdog stops the controller before its first network.
@put scan_time = 100
watchdog = 1
@told Found
fails 1
S 1 N 1 STOP 1
@case never 1 00001
@put NO 00002
NC 00002
@told Found
fails 1
S 1 N 1 00001=1
@case never 1 00002
@note Off and on in turn, which does not matter to a coil that nothing drives.
@put NO 00002
NC 00001
@told Ok
holds 1
@case never 1 00002
@note It does to one that reads it: the second state is not alike the first, and the third is.
@put networks = ["1,1 NO 00002; 1,2 CO 00001"]
networks = ["1,1 NC 00001; 1,2 CO 00001", "1,1 NO 00001; 1,2 NC 00001; 1,3 CO 00002"]
@told Ok
holds 2
@case never 1 00001
@put orders = ["1 - - -"]
orders = ["1 - 1 -"]
[[controller.drop]]
number = 1
modules = ["in 10001"]
script = ["0000", "8000"]
@put NO 00002
NO 10001
@told Found
fails 1
I 1 1 2
S 1 N 1 00001=1
@case never 1 00002
@note No row matters to a coil that nothing drives.
@put orders = ["1 - - -"]
orders = ["1 - 1 -"]
[[controller.drop]]
number = 1
modules = ["in 10001"]
script = ["0000", "8000"]
@put NO 00002
NO 10001
@told Ok
holds 1
@case never 1 00002
@note Each row does to one that reads the input.
@put orders = ["1 - - -"]
orders = ["1 - 1 -"]
[[controller.drop]]
number = 1
modules = ["in 10001"]
script = ["0000", "8000"]
@put NO 00002; 1,2 CO 00001
NO 10001; 1,2 NC 10001; 1,3 CO 00002
@told Ok
holds 2
"#;

const NO_PLANT: &str = "
@case never 2 00001
@told Refused
refused 2 BadKey plant
@case same 1
@told Refused
refused 2 BadKey plant
";

#[test]
fn it_is_told_what_never_comes(rt: HostRuntime) -> Result<(), Fail> {
    show(&rt, PLANT, CASES)?;
    show(&rt, "", NO_PLANT)
}

/// A coil that follows an input, which the field turns on and off; and the same behind it.
const PLANTS: &str = r#"version = 1
scan_time = 100
[[controller]]
node = 1
coils = 16
inputs = 16
panel = ["00001"]
orders = ["1 - 1 -"]
[[controller.drop]]
number = 1
modules = ["in 10001"]
script = ["0000", "8000"]
[[controller.segment]]
networks = ["1,1 NO 10001; 1,2 CO 00001"]
%NEW
version = 1 # new
scan_time = 100 # new
[[controller]]
node = 1 # new
coils = 16
inputs = 16
panel = ["00001"]
orders = ["1 - 1 -"] # new
[[controller.drop]]
number = 1
modules = ["in 10001"]
script = ["0000", "8000"] # new
[[controller.segment]]
networks = ["1,1 NO 10001; 1,2 CO 00001"] # new
"#;

const PAIRS: &str = r#"
@case same 1
@put "0000", "8000"] # new
"8000", "0000", "8000"] # new
@told Ok
holds 2
@case same -- 1 3
@note A contact beside the other one that is never on.
@put 1,2 CO 00001"] # new
2,1 NO 00002; 1,1 V; 1,2 CO 00001"] # new
@told Ok
holds 2 to 3
@case same 1
@note The new coil is never on, so the input tells them apart.
@put NO 10001; 1,2 CO 00001"] # new
NO 00002; 1,2 CO 00001"] # new
@told Found
fails 1
I 1 1 2
S 1 N 1 00001=1
S 1 N 1 00001=0
@case same 2
@told Refused
refused 17 NoController same
@case same 2
@put node = 1 # new
node = 2
@told Refused
refused 17 NoController same
@case same 1
@note From here on each stands before what comes after it in the order of the tests.
@put version = 1

@put version = 1 # new

@told Refused
refused 2 BadKey plant
@case same 1
@put orders = ["1 - 1 -"]
power = ["1 0 1"]
orders = ["1 - 1 -"]
@put version = 1 # new

@told Refused
refused 2 BadKey new plant
@case same 1
@put scan_time = 100 # new
scan_time = 0
@told Refused
refused 3 BadValue new plant
@case same 1
@put orders = ["1 - 1 -"]
power = ["1 0 1"]
orders = ["1 - 1 -"]
@put node = 1 # new
node = 2
@told Refused
refused 17 NoController new same
@case same 1
@put orders = ["1 - 1 -"]
power = ["1 0 1"]
orders = ["1 - 1 -"]
@put orders = ["1 - 1 -"] # new
power = ["1 0 1"]
orders = ["1 - 1 -"]
@told Refused
refused 19 NotAlone controller 1
@case same 1
@put ["00001"]
[]
@put orders = ["1 - 1 -"] # new
power = ["1 0 1"]
orders = ["1 - 1 -"]
@told Refused
refused 19 NotAlone new controller 1
@case same 1
@put ["00001"]
[]
@put scan_time = 100 # new
scan_time = 10
@told Refused
refused 21 NotAlike panel
@case same 1
@put 8000
4000
@put scan_time = 100 # new
scan_time = 10
@told Refused
refused 21 NotAlike scan_time
@case same 1
@put 8000
4000
@told Refused
refused 21 NotAlike drop 1
"#;

/// Where no line stands before it, the file of a new plant is empty.
const OLD_ALONE: &str = "
@case same 1
@told Refused
refused 2 BadKey new plant
";

#[test]
fn two_controllers_are_compared(rt: HostRuntime) -> Result<(), Fail> {
    show(&rt, PLANTS, PAIRS)?;
    let (old, _) = PLANTS.split_once("%NEW").ok_or("an old plant")?;
    show(&rt, old, OLD_ALONE)
}
