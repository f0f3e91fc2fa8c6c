//! Word exchanges between two controllers, and the rows that come of them.
use peer_cop::{read_wires, tested_plants_can_be_wired};
use plant_loader::{Version, load};
use plant_types::{IoDrop, MOST_SCANS, Plant, ScriptRow};
use std::alloc::{AllocError, Global};
use std::test::Fail;
use word_exchange::cop_run;

/// Controller 2 inverts a coil, which it gives; controller 5 shows its input.
const GIVING: &str = r#"version = 1
[[controller]]
node = 2
coils = 16
panel = ["00001"]
orders = ["1 - - 1"]
[[controller.drop]]
number = 1
modules = ["out 00001"]
[[controller.segment]]
networks = ["1,1 NC 00001; 1,2 CO 00001"]
"#;

const TAKING: &str = r#"[[controller]]
node = 5
coils = 16
inputs = 16
panel = ["00001"]
orders = ["1 - 1 -"]
[[controller.drop]]
number = 1
modules = ["in 10001"]
[[controller.segment]]
networks = ["1,1 NO 10001; 1,2 CO 00001"]
"#;

/// The same; power fails in its second scan, behind Begin.
const FAILING: &str = r#"[[controller]]
node = 5
coils = 16
inputs = 16
panel = ["00001"]
orders = ["1 - 1 -"]
power = ["2 0 0"]
[[controller.drop]]
number = 1
modules = ["in 10001"]
[[controller.segment]]
networks = ["1,1 NO 10001; 1,2 CO 00001"]
"#;

/// It does not answer in its second exchange, nor from the fourth on.
const SILENT: &str = r#"[[controller]]
node = 5
coils = 16
inputs = 16
panel = ["00001"]
orders = ["1 - 1 -"]
[[controller.drop]]
number = 1
modules = ["in 10001"]
script = ["0000", "X", "0000", "X"]
[[controller.segment]]
networks = ["1,1 NO 10001; 1,2 CO 00001"]
"#;

/// It takes two words twice in each scan; the second one is its own, and the last row of a short
/// script goes on.
const TWICE: &str = r#"[[controller]]
node = 5
coils = 16
inputs = 32
panel = ["00001", "00002", "00003"]
orders = ["1 - 1 -", "2 - 1 -"]
[[controller.drop]]
number = 1
modules = ["in 10001", "in 10017"]
script = ["8000 0000", "8000 8000"]
[[controller.segment]]
networks = ["1,1 NO 10001; 1,2 CO 00001", "1,1 NO 10017; 1,2 CO 00002"]
[[controller.segment]]
networks = ["1,1 NO 10001; 1,2 CO 00003"]
"#;

/// Controller 2 gives four words: 10, 20, 30 and 40.
const GIVING_WORDS: &str = r#"version = 1
[[controller]]
node = 2
coils = 64
panel = ["00001"]
orders = ["1 - - 1"]
[[controller.drop]]
number = 1
modules = ["out 00001", "out 00017", "out 00033", "out 00049"]
[[controller.segment]]
networks = [
"1,1 H; 1,2 CO 00013; 2,1 H; 2,2 CO 00015; 3,1 H; 3,2 CO 00028; 4,1 H; 4,2 CO 00030",
"1,1 H; 1,2 CO 00044; 2,1 H; 2,2 CO 00045; 3,1 H; 3,2 CO 00046; 4,1 H; 4,2 CO 00047",
"1,1 H; 1,2 CO 00059; 2,1 H; 2,2 CO 00061",
]
"#;

/// Controller 5 takes four words, and its own are 1, 2, 3 and 4.
const TAKING_WORDS: &str = r#"[[controller]]
node = 5
coils = 16
inputs = 64
panel = ["00001"]
orders = ["1 - 1 -"]
[[controller.drop]]
number = 1
modules = ["in 10001", "in 10017", "in 10033", "in 10049"]
script = ["0001 0002 0003 0004"]
[[controller.segment]]
networks = ["1,1 NO 10001; 1,2 CO 00001"]
"#;

/// Controller 2 loses its power in its second scan, which is dark, and so is the third.
const AWAY: &str = r#"version = 1
[[controller]]
node = 2
coils = 16
panel = ["00001"]
orders = ["1 - - 1"]
power = ["2 0 1"]
[[controller.drop]]
number = 1
modules = ["out 00001"]
[[controller.segment]]
networks = ["1,1 NC 00001; 1,2 CO 00001"]
"#;

/// A plant, its wires, its scans, and the rows that the drop of controller 5 has behind them.
struct Case {
    giving: &'static str,
    taking: &'static str,
    wires: &'static str,
    scans: u32,
    rows: &'static str,
}

const WIRE: &str = "5 1 1 2 1 1 1\n";

const CASES: [Case; 7] = [
    Case {
        giving: GIVING,
        taking: TAKING,
        wires: WIRE,
        scans: 3,
        rows: "0000|8000|0000|",
    },
    // A drop that is not wired keeps its script.
    Case {
        giving: GIVING,
        taking: TAKING,
        wires: "",
        scans: 2,
        rows: "0000|",
    },
    // The row that an exchange skipped is that of the next one.
    Case {
        giving: GIVING,
        taking: FAILING,
        wires: WIRE,
        scans: 5,
        rows: "0000|8000|8000|0000|",
    },
    Case {
        giving: GIVING,
        taking: SILENT,
        wires: WIRE,
        scans: 5,
        rows: "0000|X|0000|X|X|",
    },
    Case {
        giving: GIVING,
        taking: TWICE,
        wires: WIRE,
        scans: 4,
        rows: "00000000|00008000|80008000|80008000|00008000|00008000|80008000|80008000|",
    },
    // A range reaches its own words.
    Case {
        giving: GIVING_WORDS,
        taking: TAKING_WORDS,
        wires: "5 1 2 2 1 3 2\n",
        scans: 2,
        rows: "0001000000000004|0001001e00280004|",
    },
    // A node that makes no Pass sends what it sent.
    Case {
        giving: AWAY,
        taking: TAKING,
        wires: WIRE,
        scans: 6,
        rows: "0000|8000|8000|8000|8000|0000|",
    },
];

/// A row of a script, and a bar.
fn push_row(alloc: Global, rows: &mut String, row: &ScriptRow) -> Result<(), AllocError> {
    match row {
        ScriptRow::Silent => rows.push('X')?,
        ScriptRow::Row(words) => {
            for word in words.words() {
                rows.push_str(format!(in alloc; "{word:04x}")?.as_str())?;
            }
        }
    }
    rows.push('|')?;
    Ok(())
}

/// The rows of the drops of controller 5.
fn rows_of(alloc: Global, plant: &Plant) -> Result<String, AllocError> {
    let mut rows = String::new(alloc);
    for plan in plant.controllers.as_slice() {
        if plan.node == 5 {
            push_drops(alloc, &mut rows, plan.drops.as_slice())?;
        }
    }
    Ok(rows)
}

/// The rows of these drops.
fn push_drops(alloc: Global, rows: &mut String, drops: &[IoDrop]) -> Result<(), AllocError> {
    for drop in drops {
        for row in drop.script.as_slice() {
            push_row(alloc, rows, row)?;
        }
    }
    Ok(())
}

/// The rows that a word exchange makes, or what is refused.
fn rows_made(alloc: Global, file: &str, lines: &str, scans: u32) -> Result<String, AllocError> {
    let Ok(plant) = load(alloc, Version::One, file.as_bytes()) else {
        return String::from_str(alloc, "no plant");
    };
    tested_plants_can_be_wired();
    let Ok(wires) = read_wires(alloc, lines.as_bytes(), &plant) else {
        return String::from_str(alloc, "no wires");
    };
    let made = cop_run(alloc, &plant, wires.as_slice(), scans.min(MOST_SCANS))?;
    rows_of(alloc, &made.plant)
}

#[test]
fn words_come_with_the_next_scan(rt: HostRuntime) -> Result<(), Fail> {
    let alloc = rt.alloc();
    for case in &CASES {
        let file = format!(in alloc; "{}{}", case.giving, case.taking)?;
        let rows = rows_made(alloc, file.as_str(), case.wires, case.scans)?;
        assert_eq!(rt; rows.as_str(), case.rows);
    }
    Ok(())
}
