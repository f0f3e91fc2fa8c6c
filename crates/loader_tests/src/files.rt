mod joined;
mod limits;
mod networks;
mod tables;

use plant_loader::{LoadEnd, Version, load};
use plant_types::{
    BridgePlan, Cell, ControllerPlan, Element, Fate, HostAsk, HostPlan, IoDrop, Module, ModuleKind,
    MoveOp, NetPlan, Network, OrderRow, Plant, PowerRow, Ref, RefKind, ScriptRow, Short,
};
use std::alloc::{AllocError, Global};
use std::process::Abort;
use std::test::Fail;

// Why there is no plant of these bytes, where there is none.
fn end_of(alloc: Global, newest: Version, bytes: &[u8]) -> Option<LoadEnd> {
    load(alloc, newest, bytes).err()
}

// What a plant file is answered with: its fault and place, or that it is taken.
fn answer(alloc: Global, newest: Version, bytes: &[u8]) -> Result<String, AllocError> {
    match end_of(alloc, newest, bytes) {
        None => String::from_str(alloc, "taken"),
        Some(LoadEnd::Refused(fault, place)) => format!(in alloc; "{fault} {place}"),
        Some(LoadEnd::NoMemory) => String::from_str(alloc, "no memory"),
    }
}

// What a letter of a part stands for, where it does not stand for itself.
fn unfolded_letter(letter: char) -> Option<&'static str> {
    match letter {
        '|' => Some("\n"),
        '@' => Some("[[controller.segment]]\nnetworks = []\n"),
        '%' => Some("[[controller.drop]]"),
        '(' => Some("{ networks = ["),
        ')' => Some("] }"),
        _ => None,
    }
}

// A part of a plant file, written in one line.
fn push_unfolded(text: &mut String, part: &str) -> Result<(), AllocError> {
    for letter in part.chars() {
        match unfolded_letter(letter) {
            Some(piece) => text.push_str(piece)?,
            None => text.push(letter)?,
        }
    }
    Ok(())
}

// Texts between a start and an end, and what each is answered with behind a head.
struct Table {
    start: &'static str,
    rows: &'static str,
    end: &'static str,
    head: &'static str,
}

// What stands before networks: 16 coils, 16 inputs, 10 input registers and 100 registers.
const NETWORKS: &str = "version = 1\n[[controller]]\nnode = 1\ncoils = 16\ninputs = 16\n\
    input_registers = 10\nregisters = 100\norders = [\"1 - - -\"]\n[[controller.segment]]\n\
    networks = [\"";

const NETWORKS_END: &str = "\"]\n";

// The end of a plant: its orders, with blanks wherever they may stand, and its one segment.
const END: &str = "\norders = [\" 1\t- - - \"]\n[[controller.segment]]\nnetworks = []\n";

// What stands before the keys of a controller, and before its orders.
const CONTROLLER: &str = "version = 1\n[[controller]]\n";

const START: &str = "version = 1\n[[controller]]\nnode = 1\ncoils = 16\n";

// What stands before the power rows of a controller with one order row, and behind them.
const POWER: &str = "version = 1\n[[controller]]\nnode = 1\norders = [\"1 - - -\"]\npower = [";

const POWER_END: &str = "]\n[[controller.segment]]\nnetworks = []\n";

const SEGMENTS: &str = "version = 1\n[[controller]]\nnode = 1\ncoils = 16\nsegment = ";

// What stands before the requests of a host.
const MANY_REQUESTS: &str =
    "version = 1\ncontroller = [{ node = 1 }]\nhost = [{ node = 2, requests = [";

// What stands before the tables of drops: 32 discretes and 20 registers of each kind.
const DROP: &str = "version = 1\n[[controller]]\nnode = 1\ncoils = 32\ninputs = 32\n\
    input_registers = 20\nregisters = 20\n[[controller.drop]]\n";

const MODULES: &str = "version = 1\n[[controller]]\nnode = 1\ncoils = 32\ninputs = 32\n\
    input_registers = 20\nregisters = 20\n[[controller.drop]]\nnumber = 1\nmodules = [";

const WORDS_IN: &str = "version = 1\n[[controller]]\nnode = 1\ninputs = 32\n\
    input_registers = 20\n[[controller.drop]]\nnumber = 1\n\
    modules = [\"inw 30001 16\", \"inw 30001 16\", \"inw 30001 16\", ";

const SCRIPTS: &str = "version = 1\n[[controller]]\nnode = 1\ncoils = 32\ninputs = 32\n\
    input_registers = 20\nregisters = 20\n[[controller.drop]]\nnumber = 1\n";

const TABLES: [Table; 20] = [
    Table {
        start: NETWORKS,
        rows: networks::TAKEN,
        end: NETWORKS_END,
        head: "",
    },
    Table {
        start: NETWORKS,
        rows: networks::BAD_CELLS,
        end: NETWORKS_END,
        head: "6 BadCell controller 1 segment 1 network ",
    },
    Table {
        start: NETWORKS,
        rows: networks::BAD_VALUES,
        end: NETWORKS_END,
        head: "3 BadValue controller 1 segment 1 network ",
    },
    Table {
        start: NETWORKS,
        rows: networks::BAD_REFS,
        end: NETWORKS_END,
        head: "5 BadRef controller 1 segment 1 network ",
    },
    Table {
        start: NETWORKS,
        rows: networks::BAD_SHAPES,
        end: NETWORKS_END,
        head: "7 BadShape controller 1 segment 1 network ",
    },
    Table {
        start: NETWORKS,
        rows: networks::COILS_TWICE,
        end: NETWORKS_END,
        head: "8 CoilTwice controller 1 segment 1 network ",
    },
    Table {
        start: "",
        rows: tables::BAD_TABLES,
        end: END,
        head: "",
    },
    Table {
        start: CONTROLLER,
        rows: tables::BAD_CONTROLLERS,
        end: END,
        head: "",
    },
    Table {
        start: "version = 1\n",
        rows: tables::TAKEN_PLANTS,
        end: END,
        head: "",
    },
    Table {
        start: START,
        rows: tables::BAD_ORDERS,
        end: "",
        head: "",
    },
    Table {
        start: START,
        rows: tables::TAKEN_ENDS,
        end: "",
        head: "",
    },
    Table {
        start: POWER,
        rows: tables::POWER_ROWS,
        end: POWER_END,
        head: "",
    },
    Table {
        start: SEGMENTS,
        rows: tables::BAD_SEGMENTS,
        end: "",
        head: "",
    },
    Table {
        start: DROP,
        rows: tables::BAD_DROPS,
        end: "",
        head: "",
    },
    Table {
        start: MODULES,
        rows: tables::BAD_MODULES,
        end: "]\n",
        head: "10 BadDrop controller 1 drop 1 module ",
    },
    Table {
        start: MODULES,
        rows: tables::LACKING_MODULES,
        end: "]\n",
        head: "5 BadRef controller 1 drop 1 module ",
    },
    Table {
        start: WORDS_IN,
        rows: tables::WORDS,
        end: "]\n",
        head: "",
    },
    Table {
        start: SCRIPTS,
        rows: tables::BAD_SCRIPTS,
        end: "",
        head: "11 BadScript controller 1 drop 1 script ",
    },
    Table {
        start: "version = 1\n",
        rows: tables::PLANTS,
        end: "",
        head: "",
    },
    Table {
        start: MANY_REQUESTS,
        rows: tables::REQUESTS,
        end: "] }]\n",
        head: "",
    },
];

// What stands before the keys of a plant of several networks, before its stations, and before what
// else such stations and bridges have.
const JOINED: &str = "version = 2\n";

const STATIONS: &str = "version = 2\nnetwork = [{ number = 1 }, { number = 2 }]\n";

const HOSTS: &str = "version = 2\nnetwork = [{ number = 1 }, { number = 2 }]\n\
    controller = [{ node = 1, network = 1 }]\nhost = [{ node = 2, ";

const BRIDGES: &str = "version = 2\nnetwork = [{ number = 2 }, { number = 1 }]\n\
    controller = [{ node = 1, network = 1 }]\nhost = [{ node = 2, network = 2 }]\nbridges = [";

const ROUTES: &str = "version = 2\nnetwork = [{ number = 4 }]\n\
    controller = [{ node = 1, network = 4 }]\nhost = [{ node = 2, network = 4, requests = [";

const NEWER: Table = Table {
    start: "version = ",
    rows: joined::NEWER,
    end: "",
    head: "",
};

const JOINED_TABLES: [Table; 6] = [
    Table {
        start: JOINED,
        rows: joined::NETWORKS,
        end: "",
        head: "",
    },
    Table {
        start: STATIONS,
        rows: joined::STATIONS,
        end: "",
        head: "",
    },
    Table {
        start: HOSTS,
        rows: joined::HOSTS,
        end: "",
        head: "",
    },
    Table {
        start: BRIDGES,
        rows: joined::BRIDGES,
        end: "]\n",
        head: "",
    },
    Table {
        start: ROUTES,
        rows: joined::ROUTES,
        end: "] }]\n",
        head: "",
    },
    Table {
        start: "version = ",
        rows: joined::VERSIONS,
        end: "",
        head: "",
    },
];

fn push_file(text: &mut String, table: &Table, part: &str) -> Result<(), AllocError> {
    text.push_str(table.start)?;
    push_unfolded(text, part)?;
    text.push_str(table.end)
}

// What the file with a part in the place of a table's rows is answered with.
fn answer_with(
    alloc: Global,
    newest: Version,
    table: &Table,
    part: &str,
) -> Result<String, AllocError> {
    let mut text = String::new(alloc);
    push_file(&mut text, table, part)?;
    answer(alloc, newest, text.as_bytes())
}

fn answers_row(
    rt: &impl Abort,
    alloc: Global,
    newest: Version,
    table: &Table,
    row: &str,
) -> Result<(), Fail> {
    let (part, tail) = row.split_once(" => ").ok_or("an answer")?;
    let answer = answer_with(alloc, newest, table, part)?;
    assert_eq!(rt; answer.strip_prefix(table.head), Some(tail), "{part}");
    Ok(())
}

fn answers_table(
    rt: &impl Abort,
    alloc: Global,
    newest: Version,
    table: &Table,
) -> Result<(), Fail> {
    for row in table.rows.lines() {
        answers_row(rt, alloc, newest, table, row)?;
    }
    Ok(())
}

#[test]
fn files_are_answered(rt: HostRuntime) -> Result<(), Fail> {
    for table in &TABLES {
        answers_table(&rt, rt.alloc(), Version::One, table)?;
    }
    answers_table(&rt, rt.alloc(), Version::One, &NEWER)
}

#[test]
fn they_are_answered_alike_where_newer_ones_are_read(rt: HostRuntime) -> Result<(), Fail> {
    for table in &TABLES {
        answers_table(&rt, rt.alloc(), Version::Two, table)?;
    }
    Ok(())
}

#[test]
fn files_of_several_networks_are_answered(rt: HostRuntime) -> Result<(), Fail> {
    for table in &JOINED_TABLES {
        answers_table(&rt, rt.alloc(), Version::Two, table)?;
    }
    Ok(())
}

// A plant whose controllers and hosts do not rise in the file.
const READ: &str = r#"version = 1
scan_time = 25
watchdog = 1000
[net]
fates = "DLA"
answer = 2
rotations = 10
rounds = 100
holds = 100000
[[controller]]
node = 9
coils = 32
inputs = 32
input_registers = 20
registers = 100
panel = ["00001", "\t10032 "]
orders = ["1 00016 2 -", " 1\t- - 1"]
power = ["1 0 2", " 4\t2 0 "]
[[controller.drop]]
number = 2
modules = ["in 10017", " outw\t40005  16 ", "inw 30019 2", "out 00001"]
script = ["8000 00Ff 1234", " X "]
[[controller.drop]]
number = 1
modules = ["inw 30001 1"]
[[controller.segment]]
networks = ["", "1,1 H; 4,1 V\n;1,2 T>R 40030 40040 5; 1,3 CO 00016; 6,1 V"]
[[controller]]
node = 3
[[host]]
node = 64
requests = ["10 3 0300aB", "1 9 08"]
[[host]]
node = 1
"#;

fn at(kind: RefKind, number: u16) -> Ref {
    Ref { kind, number }
}

fn io_module(kind: ModuleKind, first: u16, count: u16) -> Module {
    Module { kind, first, count }
}

fn cell(column: u8, element: Element) -> Cell {
    Cell {
        row: 1,
        column,
        element,
    }
}

fn order(control: Option<Ref>, input: Option<u8>, output: Option<u8>) -> OrderRow {
    OrderRow {
        segment: 1,
        control,
        input,
        output,
    }
}

fn failure(scan: u32, row: u16, dark: u32) -> PowerRow {
    PowerRow { scan, row, dark }
}

fn has_words(row: &ScriptRow, words: &[u16]) -> bool {
    match row {
        ScriptRow::Row(row) => row.words() == words,
        ScriptRow::Silent => words.is_empty(),
    }
}

fn has_second_network(networks: &[Network]) -> bool {
    let [_, network] = networks else {
        return false;
    };
    let to_register = Element::Move {
        op: MoveOp::TableToReg,
        top: at(RefKind::Register, 30),
        mid: at(RefKind::Register, 40),
        length: 5,
    };
    let cells = [
        cell(1, Element::Wire),
        cell(2, to_register),
        cell(3, Element::Coil(at(RefKind::Coil, 16))),
    ];
    let shorts = [Short { row: 4, column: 1 }, Short { row: 6, column: 1 }];
    network.cells.as_slice() == cells.as_slice() && network.shorts.as_slice() == shorts.as_slice()
}

fn has_drops(drops: &[IoDrop]) -> bool {
    let [two, one] = drops else {
        return false;
    };
    let modules = [
        io_module(ModuleKind::In, 17, 1),
        io_module(ModuleKind::OutWords, 5, 16),
        io_module(ModuleKind::InWords, 19, 2),
        io_module(ModuleKind::Out, 1, 1),
    ];
    let ([words, silent], [zeros]) = (two.script.as_slice(), one.script.as_slice()) else {
        return false;
    };
    two.number == 2
        && two.modules.as_slice() == modules.as_slice()
        && has_words(words, &[0x8000, 0x00ff, 0x1234])
        && has_words(silent, &[])
        && one.number == 1
        && has_words(zeros, &[0])
}

fn has_plan(plan: &ControllerPlan) -> bool {
    let panel = [at(RefKind::Coil, 1), at(RefKind::Input, 32)];
    let orders = [
        order(Some(at(RefKind::Coil, 16)), Some(2), None),
        order(None, None, Some(1)),
    ];
    let [segment] = plan.segments.as_slice() else {
        return false;
    };
    plan.node == 9
        && plan.coils == 32
        && plan.input_registers == 20
        && plan.registers == 100
        && plan.panel.as_slice() == panel.as_slice()
        && plan.orders.as_slice() == orders.as_slice()
        && plan.power.as_slice() == [failure(1, 0, 2), failure(4, 2, 0)].as_slice()
        && has_drops(plan.drops.as_slice())
        && has_second_network(segment.networks.as_slice())
}

fn goes_by(ask: &HostAsk, hold: u32, route: &[u8], bytes: &[u8]) -> bool {
    ask.hold == hold && ask.route.addresses() == route && ask.pdu.bytes() == bytes
}

fn has_hosts(hosts: &[HostPlan]) -> bool {
    let [one, other] = hosts else {
        return false;
    };
    let [first, second] = other.requests.as_slice() else {
        return false;
    };
    one.node == 1
        && one.requests.as_slice().is_empty()
        && other.node == 64
        && goes_by(first, 10, &[3], &[3, 0, 0xab])
        && goes_by(second, 1, &[9], &[8])
        && one.network == 0
        && other.network == 0
}

fn has_net(plant: &Plant, fates: &[Fate]) -> bool {
    let [net] = plant.nets.as_slice() else {
        return false;
    };
    plant.bridges.as_slice().is_empty()
        && net.number == 0
        && net.members.as_slice() == [1, 3, 9, 64].as_slice()
        && net.bridges.as_slice().is_empty()
        && net.fates.as_slice() == fates
        && net.answer == 2
        && net.rotations == 10
        && net.rounds == 100
        && net.holds == 100_000
}

fn is_read(plant: &Plant) -> bool {
    let [low, high] = plant.controllers.as_slice() else {
        return false;
    };
    plant.scan_time == 25
        && plant.watchdog == 1000
        && has_net(plant, &[Fate::D, Fate::L, Fate::A])
        && low.node == 3
        && has_plan(high)
        && has_hosts(plant.hosts.as_slice())
}

fn is_small(plant: &Plant) -> bool {
    let [net] = plant.nets.as_slice() else {
        return false;
    };
    net.members.as_slice() == [7].as_slice()
        && net.fates.as_slice() == [Fate::D].as_slice()
        && net.holds == 100_000
}

const SMALL: &str = "version = 1\ncontroller = [{ node = 7 }]\nscan_time = 1\n";

#[test]
fn a_plant_is_read(rt: HostRuntime) -> Result<(), Fail> {
    for newest in [Version::One, Version::Two] {
        let is = load(rt.alloc(), newest, READ.as_bytes()).is_ok_and(|plant| is_read(&plant));
        assert!(rt; is);
    }
    Ok(())
}

#[test]
fn a_small_plant_is_read(rt: HostRuntime) -> Result<(), Fail> {
    let plant = load(rt.alloc(), Version::One, SMALL.as_bytes());
    let is = plant.is_ok_and(|plant| is_small(&plant));
    assert!(rt; is);
    Ok(())
}

// A plant of three networks and two bridges, none of which rise in the file.
const JOINED_READ: &str = r#"version = 2
bridges = ["4 31 1 30", " 1 10\t7 12 "]
[net]
answer = 30
rotations = 5
rounds = 3
holds = 900
[[network]]
number = 7
fates = "LA"
[[network]]
number = 1
[[network]]
number = 4
fates = "DAD"
[[controller]]
node = 20
network = 7
[[controller]]
node = 3
network = 1
[[host]]
node = 50
network = 4
requests = ["10 31.10.20 0300000002", "1 31 08"]
[[host]]
node = 11
network = 1
"#;

fn is_net(net: &NetPlan, number: u8, members: &[u8], bridges: &[u8], fates: &[Fate]) -> bool {
    net.number == number
        && net.members.as_slice() == members
        && net.bridges.as_slice() == bridges
        && net.fates.as_slice() == fates
        && net.answer == 30
        && net.rotations == 5
        && net.rounds == 3
        && net.holds == 900
}

fn are_nets(nets: &[NetPlan]) -> bool {
    let [one, four, seven] = nets else {
        return false;
    };
    is_net(one, 1, &[3, 10, 11, 30], &[10, 30], &[Fate::D])
        && is_net(four, 4, &[31, 50], &[31], &[Fate::D, Fate::A, Fate::D])
        && is_net(seven, 7, &[12, 20], &[12], &[Fate::L, Fate::A])
}

fn are_hosts(hosts: &[HostPlan]) -> bool {
    let [low, high] = hosts else {
        return false;
    };
    let [first, second] = high.requests.as_slice() else {
        return false;
    };
    low.node == 11
        && low.network == 1
        && low.requests.as_slice().is_empty()
        && high.node == 50
        && high.network == 4
        && goes_by(first, 10, &[31, 10, 20], &[3, 0, 0, 0, 2])
        && goes_by(second, 1, &[31], &[8])
}

fn bridge(left_net: u8, left: u8, right_net: u8, right: u8) -> BridgePlan {
    BridgePlan {
        left_net,
        left,
        right_net,
        right,
    }
}

fn is_joined(plant: &Plant) -> bool {
    let [low, high] = plant.controllers.as_slice() else {
        return false;
    };
    let bridges = [bridge(1, 10, 7, 12), bridge(4, 31, 1, 30)];
    low.node == 3
        && low.network == 1
        && high.node == 20
        && high.network == 7
        && are_nets(plant.nets.as_slice())
        && are_hosts(plant.hosts.as_slice())
        && plant.bridges.as_slice() == bridges.as_slice()
}

#[test]
fn a_plant_of_three_networks_is_read(rt: HostRuntime) -> Result<(), Fail> {
    let plant = load(rt.alloc(), Version::Two, JOINED_READ.as_bytes());
    let is = plant.is_ok_and(|plant| is_joined(&plant));
    assert!(rt; is);
    Ok(())
}

#[test]
fn it_is_too_new_where_version_one_is_the_newest(rt: HostRuntime) -> Result<(), Fail> {
    let answer = answer(rt.alloc(), Version::One, JOINED_READ.as_bytes())?;
    assert_eq!(rt; answer.as_str(), "4 BadVersion plant");
    Ok(())
}

// What is no document.
const NO_DOCUMENTS: [&[u8]; 5] = [
    b"version = 1\n# \xff",
    b"version = \"1",
    b"version = 1\nversion = 1\n",
    b"version = 99999999999999999999\n",
    b"version 1\n",
];

#[test]
fn other_bytes_are_no_document(rt: HostRuntime) -> Result<(), Fail> {
    for bytes in NO_DOCUMENTS {
        let answer = answer(rt.alloc(), Version::One, bytes)?;
        assert_eq!(rt; answer.as_str(), "1 BadToml plant");
    }
    Ok(())
}

#[test]
fn an_empty_document_has_no_version(rt: HostRuntime) -> Result<(), Fail> {
    let answer = answer(rt.alloc(), Version::One, b"")?;
    assert_eq!(rt; answer.as_str(), "2 BadKey plant");
    Ok(())
}
