//! Cones that were worked out by hand, from what the networks read and store in.
use crate::cases::{Case, coil, input, show};
use std::test::Fail;

/// Coils that depend on each other, each on one that an earlier network drives.
const RELAYS: &str = "version = 1
[[controller]]
node = 1
coils = 16
inputs = 16
orders = [\"1 - - -\"]
[[controller.segment]]
networks = [
    \"1,1 NO 10001; 2,1 NO 00001; 1,1 V; 1,2 CO 00001\",
    \"1,1 NO 00001; 1,2 NC 10002; 1,3 CL 00002\",
    \"1,1 PT 00002; 1,2 CO 00016\",
    \"1,1 NT 00002; 1,2 NO 10003; 1,3 CO 00003\",
    \"1,1 NO 00016; 1,2 NO 00005; 1,3 CO 00004\",
]
";

/// Elements that direct the solve, in segments that an input and a coil control.
const DIRECTED: &str = "version = 1
[[controller]]
node = 1
coils = 16
inputs = 16
registers = 2
orders = [\"1 10009 - -\", \"2 00003 - -\"]
[[controller.segment]]
networks = [
    \"1,1 NO 10001; 1,2 CO 00001\",
    \"1,1 NO 00001; 1,2 SKP 40001\",
    \"1,1 NO 10002; 1,2 CO 00002\",
    \"1,1 NO 10003; 1,2 CO 00003\",
]
[[controller.segment]]
networks = [\"1,1 NO 10004; 1,2 JSR 1\"]
[[controller.segment]]
networks = [
    \"1,1 LAB 1; 2,1 NO 10005; 2,2 CO 00005\",
    \"1,1 NO 10006; 1,2 CO 00006\",
    \"1,1 NO 10007; 1,2 RET\",
]
";

/// A timer and a counter with registers as presets, a register that two networks store in, and
/// coils that read these.
const NUMBERS: &str = "version = 1
[[controller]]
node = 1
coils = 16
inputs = 16
input_registers = 2
registers = 9
orders = [\"1 - - -\"]
[[controller.segment]]
networks = [
    \"1,1 NO 10001; 2,1 NO 10002; 1,2 T0.1 40005 40001\",
    \"1,1 NO 10003; 2,1 H; 1,2 UCTR 30002 40002; 1,3 CO 00001\",
    \"1,1 SUB 40001 30001 40006; 1,2 CO 00016\",
    \"1,1 NO 10004; 1,2 ADD 40002 1 40003\",
    \"1,1 NO 10005; 1,2 ADD 7 1 40003\",
    \"1,1 SUB 40003 5 40007; 1,2 CO 00002\",
]
";

/// Tables, of which whole runs of registers are read and stored in, and the number of a SENS.
const TABLES: &str = "version = 1
[[controller]]
node = 1
coils = 16
inputs = 16
input_registers = 4
registers = 20
orders = [\"1 - - -\"]
[[controller.segment]]
networks = [
    \"1,1 NO 10001; 1,2 BLKM 30002 40001 3\",
    \"1,1 NO 10002; 1,2 R>T 40003 40005 2\",
    \"1,1 NO 10003; 1,2 SENS 40010 40011 2\",
    \"1,1 SUB 40007 1 40014; 1,2 CO 00001\",
    \"1,1 SUB 40010 1 40015; 1,2 CO 00002\",
    \"1,1 SUB 40012 1 40016; 1,2 CO 00003\",
]
";

// A network that stores in nothing of a cone adds nothing, though it reads some of it: 00003 and
// 00004 are in no cone but their own. 10003 is an input, and no network stores in it.
#[test]
fn coils_read_coils(rt: HostRuntime) -> Result<(), Fail> {
    let cases = [
        Case {
            of: coil(16),
            has: " 00001 00002 00016 10001 10002",
        },
        Case {
            of: coil(1),
            has: " 00001 10001",
        },
        Case {
            of: coil(3),
            has: " 00001 00002 00003 10001 10002 10003",
        },
        Case {
            of: coil(4),
            has: " 00001 00002 00004 00005 00016 10001 10002",
        },
        Case {
            of: input(3),
            has: " 10003",
        },
        Case { of: None, has: "" },
    ];
    show(&rt, RELAYS, &cases)
}

// What a network with SKP, JSR, LAB or RET reads is in each cone, and so are the controls of both
// rows. Another network of a subroutine matters by what it stores in, as one of a segment does.
#[test]
fn some_are_in_each_cone(rt: HostRuntime) -> Result<(), Fail> {
    let cases = [
        Case {
            of: None,
            has: " 00001 00003 10001 10003 10004 10005 10007 10009 40001",
        },
        Case {
            of: coil(2),
            has: " 00001 00002 00003 10001 10002 10003 10004 10005 10007 10009 40001",
        },
        Case {
            of: coil(6),
            has: " 00001 00003 00006 10001 10003 10004 10005 10006 10007 10009 40001",
        },
    ];
    show(&rt, DIRECTED, &cases)
}

// 00001 stands in the network of the counter, and 00002 reads a register that two networks store
// in, one of them by what is counted.
#[test]
fn targets_are_stored_in_and_read(rt: HostRuntime) -> Result<(), Fail> {
    let cases = [
        Case {
            of: coil(16),
            has: " 00016 10001 10002 30001 40001 40005 40006",
        },
        Case {
            of: coil(1),
            has: " 00001 10003 30002 40002",
        },
        Case {
            of: coil(2),
            has: " 00002 10003 10004 10005 30002 40002 40003 40007",
        },
    ];
    show(&rt, NUMBERS, &cases)
}

// R>T stores in three registers, with its pointer, and reads 40003, the last that BLKM stores in.
// SENS moves on 40010 and stores in nothing else.
#[test]
fn whole_tables_are_in_a_cone(rt: HostRuntime) -> Result<(), Fail> {
    let cases = [
        Case {
            of: coil(1),
            has: " 00001 10001 10002 30002 30003 30004 40001 40002 40003 40005 40006 40007 40014",
        },
        Case {
            of: coil(2),
            has: " 00002 10003 40010 40011 40012 40015",
        },
        Case {
            of: coil(3),
            has: " 00003 40012 40016",
        },
    ];
    show(&rt, TABLES, &cases)
}
