//! Runs of a primary and its standby.
use crate::cases::show;
use std::test::Fail;

/// A coil that follows another, and where the port begins. The frame that turns the coil on is also
/// its reply.
const PLANT: &str = r#"version = 1
[[controller]]
node = 1
coils = 16
inputs = 16
registers = 100
orders = ["1 - - -"]
panel = ["00001"]
# controller
[[controller.segment]]
networks = ["1,1 NO 00002; 1,2 CO 00001"]
%SESSION
"#;

const CASES: &str = r#"
@case standby 1 1 2
@put version = 1
version = 1
[net]
fates = "D"
@behind
:01050001FF00FA\r
@told Ok
S 1 N 1 00001=0
:01050001FF00FA\r
SWITCH 1
:01050001FF00FA\r
S 2 N 1 00001=1
@case standby 1 1 2
@put version = 1
version = 1
[net]
fates = "A"
@behind
:01050001FF00FA\r
@told Ok
S 1 N 1 00001=0
SWITCH 1
:01050001FF00FA\r
S 2 N 1 00001=1
@case standby 1 1 2
@put version = 1
version = 1
[net]
fates = "L"
@behind
:01050001FF00FA\r
@told Ok
S 1 N 1 00001=0
SWITCH 0
S 1 N 1 00001=0
:01050001FF00FA\r
S 2 N 1 00001=1
@case standby 1 -- 1 2
@note A file without fates has each packet arrive; one `--` counts for nothing.
@behind
:01050001FF00FA\r
@told Ok
S 1 N 1 00001=0
:01050001FF00FA\r
SWITCH 1
:01050001FF00FA\r
S 2 N 1 00001=1
@case standby 1 2 2
@note What was acknowledged before a packet's own transmission counts.
@put version = 1
version = 1
[net]
fates = "LDD"
@behind
:01050001FF00FA\r
:01050001FF00FA\r
@told Ok
S 1 N 1 00001=0
S 2 N 1 00001=1
:01050001FF00FA\r
:01050001FF00FA\r
SWITCH 2
:01050001FF00FA\r
@case standby 1 2 3
@note A stop before the primary fails: the frames that are left are served in that scan.
@put version = 1
version = 1
watchdog = 1
@behind
:01050001FF00FA\r
:01050001FF00FA\r
@told Ok
S 1 N 1 STOP 1
:01050001FF00FA\r
:01050001FF00FA\r
SWITCH 1
:01050001FF00FA\r
:01050001FF00FA\r
@case standby 1 2 3
@note Requests without power have no reply, and count.
@put # controller
power = ["1 0 1"]
@behind
:01050001FF00FA\r
:01050001FF00FA\r
:01050001FF00FA\r
@told Ok
S 1 N 1 OFF
S 2 N 1 OFF
SWITCH 2
S 3 N 1 00001=0
:01050001FF00FA\r
@case standby 1 1 2
@note The fates are those of the node's network.
@put version = 1
version = 2
[[network]]
number = 1
fates = "D"
[[network]]
number = 2
fates = "L"
[[controller]]
node = 9
network = 1
@put # controller
network = 2
@behind
:01050001FF00FA\r
@told Ok
S 1 N 1 00001=0
SWITCH 0
S 1 N 1 00001=0
:01050001FF00FA\r
S 2 N 1 00001=1
@case standby 1 1 2
@put version = 1
version = 2
[[network]]
number = 1
fates = "D"
[[network]]
number = 2
fates = "L"
[[controller]]
node = 9
network = 2
@put # controller
network = 1
@behind
:01050001FF00FA\r
@told Ok
S 1 N 1 00001=0
:01050001FF00FA\r
SWITCH 1
:01050001FF00FA\r
S 2 N 1 00001=1
@case standby 1 2000 2000
@note The primary fails after the last scan of all.
@put version = 1
version = 1
[net]
fates = "D"
@behind
:01050001FF00FA\r
@told Ok
...
S 2000 N 1 00001=1
SWITCH 2000
@case standby 1 2000 2000
@note The standby makes them all.
@put version = 1
version = 1
[net]
fates = "L"
@behind
:01050001FF00FA\r
@told Ok
...
S 1999 N 1 00001=1
S 2000 N 1 00001=1
@case standby 2 1 2
@put version = 1
version = 1
[net]
fates = "D"
@behind
:01050001FF00FA\r
@told Refused
refused 17 NoController session
@case session 2 2
@put version = 1
version = 1
[net]
fates = "D"
@behind
:01050001FF00FA\r
@told Refused
refused 17 NoController session
"#;

const NO_PLANT: &str = "
@case standby 2 1 2
@told Refused
refused 2 BadKey plant
";

#[test]
fn a_pair_writes_its_lines(rt: HostRuntime) -> Result<(), Fail> {
    show(&rt, PLANT, CASES)?;
    show(&rt, "", NO_PLANT)
}
