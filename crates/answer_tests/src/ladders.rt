//! Runs of one controller.
use crate::cases::{answered, show};
use std::test::Fail;

/// A controller with one segment, which is solved; no drop is read or written.
const PLANT: &str = r#"# top
version = 1
[[controller]]
node = 1
coils = 16
inputs = 16
registers = 100
# controller
orders = ["1 - - -"]
[[controller.segment]]
networks = [NETWORKS]
"#;

const CASES: &str = r#"
@case run 2
@note The contact of column 2 sees the old state, that of column 4 the new one.
@put # controller
panel = ["00001", "00002", "00003"]
@put NETWORKS
"1,1 H; 1,2 NO 00001; 1,3 CO 00002; 2,1 H; 2,2 H; 2,3 H; 2,4 NO 00001; 2,5 CO 00003; 7,1 H; 7,2 \
H; 7,3 CO 00001"
@told Ok
S 1 N 1 00001=1 00002=0 00003=1
S 2 N 1 00001=1 00002=1 00003=1
@case run 1
@note Shorts over all rows.
@put # controller
panel = ["00001", "00007"]
@put NETWORKS
"4,1 H; 1,1 V; 2,1 V; 3,1 V; 4,1 V; 5,1 V; 6,1 V; 1,2 CO 00001; 7,2 CO 00007"
@told Ok
S 1 N 1 00001=1 00007=1
@case run 7
@note A scan takes 0.3 s, and the timer counts seconds that have ended.
@put # top
scan_time = 30
@put # controller
panel = ["40001", "00001", "00002"]
@put NETWORKS
"1,1 T1.0 2 40001; 1,2 CO 00001; 2,2 CO 00002"
@told Ok
S 1 N 1 40001=0 00001=0 00002=1
S 2 N 1 40001=0 00001=0 00002=1
S 3 N 1 40001=0 00001=0 00002=1
S 4 N 1 40001=1 00001=0 00002=1
S 5 N 1 40001=1 00001=0 00002=1
S 6 N 1 40001=1 00001=0 00002=1
S 7 N 1 40001=2 00001=1 00002=0
@case run 3
@note A scan takes 0.1 s where the plant doesn't say.
@put # controller
input_registers = 1
panel = ["40001", "30001"]
@put NETWORKS
"1,1 T.01 25 40001"
@told Ok
S 1 N 1 40001=10 30001=0
S 2 N 1 40001=20 30001=0
S 3 N 1 40001=25 30001=0
@case run 3
@note Transitional contacts behind the coil that they name.
@put # controller
panel = ["00001", "00002", "00003"]
@put NETWORKS
"1,1 NC 00001; 1,2 CO 00001",
"1,1 PT 00001; 1,2 CO 00002; 2,1 NT 00001; 2,2 CO 00003"
@told Ok
S 1 N 1 00001=1 00002=1 00003=0
S 2 N 1 00001=0 00002=0 00003=1
S 3 N 1 00001=1 00002=1 00003=0
@case run 3
@note And before it, where it is as the scan before ended.
@put # controller
panel = ["00001", "00002", "00003"]
@put NETWORKS
"1,1 PT 00001; 1,2 CO 00002; 2,1 NT 00001; 2,2 CO 00003",
"1,1 NC 00001; 1,2 CO 00001"
@told Ok
S 1 N 1 00001=1 00002=0 00003=0
S 2 N 1 00001=0 00002=0 00003=0
S 3 N 1 00001=1 00002=0 00003=0
@case run 3
@note A counter counts each time that its upper input goes on.
@put # controller
panel = ["40001"]
@put NETWORKS
"1,1 NC 00001; 1,2 CO 00001",
"1,1 NO 00001; 2,1 H; 1,2 UCTR 9 40001"
@told Ok
S 1 N 1 40001=1
S 2 N 1 40001=1
S 3 N 1 40001=2
@case run 1
@note A sum of 10,000, a product of eight digits; quotients by 0, and with a decimal remainder.
@put # controller
panel = ["00001", "00002", "00003", "40001", "40002",
    "40003", "40004", "40006", "40007"]
@put NETWORKS
"1,1 ADD 9999 1 40001; 1,2 CO 00001; 4,1 MUL 8000 2 40002; 4,2 CO 00002",
"1,1 DIV 7 0 40004; 3,2 CO 00003",
"1,1 DIV 7 2 40006"
@told Ok
S 1 N 1 00001=1 00002=1 00003=1 40001=0 40002=1 40003=6000 40004=0 40006=3 40007=5000
@case run 3
@note A table of two registers that fills up, a queue of one that is full at once, and a search \
for a register of that table that is 0.
@put # controller
panel = ["40001", "00001", "40011", "00002", "40030", "00004"]
@put NETWORKS
"1,1 ADD 5 0 40021",
"1,1 H; 1,2 R>T 40021 40001 2; 2,3 CO 00001",
"1,1 H; 1,2 FIN 40021 40011 1; 2,3 CO 00002",
"1,1 H; 1,2 SRCH 40002 40030 2; 2,3 CO 00004"
@told Ok
S 1 N 1 40001=1 00001=0 40011=1 00002=1 40030=2 00004=1
S 2 N 1 40001=2 00001=1 40011=1 00002=1 40030=0 00004=0
S 3 N 1 40001=2 00001=1 40011=1 00002=1 40030=0 00004=0
@case run 1
@note The last bit of the largest matrix, and one behind it.
@put # controller
panel = ["40100", "00001", "00002", "00003", "00004"]
@put NETWORKS
"1,1 MBIT 1600 40001 100; 2,2 CO 00001; 3,2 CO 00002",
"1,1 MBIT 1601 40001 100; 2,2 CO 00003; 3,2 CO 00004"
@told Ok
S 1 N 1 40100=1 00001=1 00002=0 00003=0 00004=1
@case run 1
@note A skip ends its network at once; a skip of 1 skips no further one, and a skip of 0 all \
the rest.
@put # controller
panel = ["00001", "00002", "00003", "00004"]
@put NETWORKS
"1,1 SKP 1; 2,1 H; 2,2 CO 00001",
"1,1 H; 1,2 CO 00002",
"1,1 SKP 0; 2,1 H; 2,2 CO 00003",
"1,1 H; 1,2 CO 00004"
@told Ok
S 1 N 1 00001=0 00002=1 00003=0 00004=0
@case run 2
@note A subroutine that calls itself begins one network after another until the watchdog stops it.
@put # top
watchdog = 50
@put NETWORKS
"1,1 JSR 1"]
[[controller.segment]]
networks = ["1,1 LAB 1; 2,1 H; 2,2 JSR 1"
@told Ok
S 1 N 1 STOP 1
@case run 1
@note Two coils of one reference.
@put NETWORKS
"1,1 NO 10001; 1,2 CO 00001; 2,1 NO 10002; 2,2 CO 00001"
@told Refused
refused 8 CoilTwice controller 1 segment 1 network 1 cell 4
@case run 3
@note An input that stays on is no transition.
@put # controller
panel = ["00001"]
@put orders = ["1 - - -"]
orders = ["1 - 1 -"]
[[controller.drop]]
number = 1
modules = ["in 10001"]
script = ["8000"]
@put NETWORKS
"1,1 PT 10001; 1,2 CO 00001"
@told Ok
S 1 N 1 00001=1
S 2 N 1 00001=0
S 3 N 1 00001=0
@case run 3
@note A counter at its preset stays there.
@put # controller
panel = ["40001", "00001"]
@put orders = ["1 - - -"]
orders = ["1 - 1 -"]
[[controller.drop]]
number = 1
modules = ["in 10001"]
script = ["8000", "0000", "8000"]
@put NETWORKS
"1,1 NO 10001; 2,1 H; 1,2 UCTR 1 40001; 1,3 CO 00001"
@told Ok
S 1 N 1 40001=1 00001=1
S 2 N 1 40001=1 00001=1
S 3 N 1 40001=1 00001=1
@case run 3
@note A silent drop leaves its inputs as they were, and the last row of a script goes on.
@put # controller
panel = ["00001"]
@put orders = ["1 - - -"]
orders = ["1 - 1 -"]
[[controller.drop]]
number = 1
modules = ["in 10001"]
script = ["8000", "X"]
@put NETWORKS
"1,1 NO 10001; 1,2 CO 00001"
@told Ok
S 1 N 1 00001=1
S 2 N 1 00001=1
S 3 N 1 00001=1
@case run 4
@note Power fails before the segment of scan 2, and scan 3 is dark. The latch stays on, and the \
coil does not.
@put # controller
panel = ["00003", "00004"]
power = ["2 0 1"]
@put NETWORKS
"1,1 NO 00001; 1,2 CO 00003; 2,1 NO 00002; 2,2 CO 00004; 4,1 H; 4,2 CO 00001; 5,1 H; 5,2 CL 00002"
@told Ok
S 1 N 1 00003=0 00004=0
S 2 N 1 OFF
S 3 N 1 OFF
S 4 N 1 00003=0 00004=1
@case run 4
@note Power is to fail behind the ninth row, and there is one.
@put # controller
power = ["1 9 0"]
@put NETWORKS
"1,1 NO 00001; 1,2 CO 00003; 2,1 NO 00002; 2,2 CO 00004; 4,1 H; 4,2 CO 00001; 5,1 H; 5,2 CL 00002"
@told Refused
refused 15 BadPower controller 1 power 1
"#;

/// A controller whose one segment is empty, and one with neither segments nor a panel.
const OTHERS: &str = r#"
@case run 1
@behind
version = 1
[[controller]]
node = 64
coils = 16
inputs = 16
registers = 100
orders = ["1 - - -"]
panel = ["40100", "10016", "00016"]
[[controller.segment]]
networks = []
@told Ok
S 1 N 64 40100=0 10016=0 00016=0
@case run 2
@behind
version = 1
[[controller]]
node = 1
@told Ok
S 1 N 1
S 2 N 1
@case run 1
@note No plant at all.
@told Refused
refused 2 BadKey plant
@case run 2
@told Refused
refused 2 BadKey plant
@case flow 1 2
@told Refused
refused 2 BadKey plant
"#;

const NO_DOCUMENT: &str = "
@case run 1
@told Refused
refused 1 BadToml plant
@case run 2
@told Refused
refused 1 BadToml plant
@case flow 1 2
@told Refused
refused 1 BadToml plant
";

#[test]
fn a_controller_is_run(rt: HostRuntime) -> Result<(), Fail> {
    show(&rt, PLANT, CASES)?;
    show(&rt, "", OTHERS)?;
    show(&rt, "version = \n", NO_DOCUMENT)
}

/// A contact and a coil.
const COIL: &str = r#"version = 1
[[controller]]
node = 1
coils = 16
inputs = 16
registers = 100
orders = ["1 - - -"]
panel = ["00001"]
[[controller.segment]]
networks = ["1,1 NC 10001; 1,2 CO 00001"]
"#;

// The most scans that a run has, each with its line.
#[test]
fn two_thousand_scans_are_run(rt: HostRuntime) -> Result<(), Fail> {
    let told = answered(rt.alloc(), "run 2000", COIL)?;
    let end = "S 1999 N 1 00001=1\nS 2000 N 1 00001=1\n";
    assert_eq!(rt; told.len(), "Ok\n".len() + 36_893);
    assert!(rt; told.starts_with("Ok\n") && told.ends_with(end));
    Ok(())
}

/// A traffic light on one timer: green for two seconds, yellow for one, red for four.
const LIGHT: &str = r#"version = 1
scan_time = 100
[[controller]]
node = 3
coils = 16
registers = 10
panel = ["40001", "00001", "00002", "00003"]
orders = ["1 - - -"]
[[controller.segment]]
networks = [
"1,1 H; 2,1 NO 00010; 1,2 T1.0 6 40001; 2,3 CO 00010",
"1,1 SUB 40001 2 40002; 1,2 CO 00003; 2,2 CO 00002; 3,2 CO 00001"]
"#;

const LIGHT_CASES: &str = "
@case flow 1 2
@told Ok
F 1 3 1 1 1 01 02 00 00 00 00 00 00 00 00 00
F 1 3 1 1 2 04 00 00 00 00 00 00 00 00 00 00
F 2 3 1 1 1 03 02 00 00 00 00 00 00 00 00 00
F 2 3 1 1 2 04 00 00 00 00 00 00 00 00 00 00
@case flow 2 2
@told Ok
F 2 3 1 1 1 03 02 00 00 00 00 00 00 00 00 00
F 2 3 1 1 2 04 00 00 00 00 00 00 00 00 00 00
";

// Each network of each scan has a line.
#[test]
fn what_conducted_is_told(rt: HostRuntime) -> Result<(), Fail> {
    show(&rt, LIGHT, LIGHT_CASES)
}
