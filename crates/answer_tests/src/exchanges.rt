//! Runs of controllers that exchange words.
use crate::cases::show;
use std::test::Fail;

/// A coil of node 2, which node 5 is to show.
const PLANT: &str = r#"version = 1
[[controller]]
node = 2
coils = 16
panel = ["00001"]
orders = ["1 - - 1"]
[[controller.drop]]
number = 1
modules = ["out 00001"]
[[controller.segment]]
networks = ["1,1 NC 00001; 1,2 CO 00001"]
[[controller]]
node = 5
coils = 16
inputs = 16
panel = ["00001"]
orders = ["1 - 1 -"]
# controller
[[controller.drop]]
number = 1
modules = ["in 10001"]
[[controller.segment]]
networks = ["1,1 NO 10001; 1,2 CO 00001"]
"#;

const CASES: &str = r#"
@case cop 3
@behind
%COP
5 1 1 2 1 1 1
@told Ok
S 1 N 2 00001=1
S 1 N 5 00001=0
S 2 N 2 00001=0
S 2 N 5 00001=1
S 3 N 2 00001=1
S 3 N 5 00001=0
@case cop 3
@behind
%COP
5 1 2 2 1 1 1
@told Refused
refused 18 BadWire wire 1
@case cop -- 2
@note No line that wires stand behind, so node 5 sees zeros.
@told Ok
S 1 N 2 00001=1
S 1 N 5 00001=0
S 2 N 2 00001=0
S 2 N 5 00001=0
@case cop 2
@behind
%COP\
@told Ok
S 1 N 2 00001=1
S 1 N 5 00001=0
S 2 N 2 00001=0
S 2 N 5 00001=0
@case cop 5
@note The row that is made for a scan without power is that of the next exchange.
@put # controller
power = ["2 0 0"]
@behind
%COP
5 1 1 2 1 1 1
@told Ok
S 1 N 2 00001=1
S 1 N 5 00001=0
S 2 N 2 00001=0
S 2 N 5 OFF
S 3 N 2 00001=1
S 3 N 5 00001=1
S 4 N 2 00001=0
S 4 N 5 00001=1
S 5 N 2 00001=1
S 5 N 5 00001=0
@case cop 3
@note A word is wired twice.
@behind
%COP
5 1 1 2 1 1 1
5 1 1 2 1 1 1
@told Refused
refused 18 BadWire wire 2
@case cop 3
@note The line has no end.
@behind
%COP
5 1 1 2 1 1 1\
@told Refused
refused 18 BadWire wire 1
@case cop 3
@note It has an end of two bytes.
@behind
%COP
5 1 1 2 1 1 1\r
@told Refused
refused 18 BadWire wire 1
@case cop 3
@note A line is empty.
@behind
%COP
5 1 1 2 1 1 1

@told Refused
refused 18 BadWire wire 2
@case cop 3
@note A number has a leading zero.
@behind
%COP
5 1 1 2 1 01 1
@told Refused
refused 18 BadWire wire 1
@case cop 3
@note A fault of the plant comes before one of a wire.
@put # controller
power = ["0 0 0"]
@behind
%COP
5 1 2 2 1 1 1
@told Refused
refused 15 BadPower controller 2 power 1
"#;

#[test]
fn words_go_by_wires(rt: HostRuntime) -> Result<(), Fail> {
    show(&rt, PLANT, CASES)
}
