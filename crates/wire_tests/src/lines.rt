//! Lines of wires, and what each text of them is answered with.
ghost use Rattle.peer_cop.specs.Plants.{CanBeWired};

use input_cuts::cut_after;
use peer_cop::{WireEnd, read_wires, tested_plants_can_be_wired};
use plant_loader::{Version, load};
use plant_types::Plant;
use std::alloc::{AllocError, Global};
use std::test::Fail;

/// A word of node 2 that reaches a word of node 5.
const PLANT: &str = r#"version = 1
[[controller]]
node = 2
coils = 16
[[controller.drop]]
number = 1
modules = ["out 00001"]
[[controller]]
node = 5
coils = 16
inputs = 16
[[controller.drop]]
number = 1
modules = ["in 10001"]
"#;

/// Node 2 gives 33 words, and node 5 takes 34.
const WIDE: &str = r#"version = 1
[[controller]]
node = 2
coils = 16
registers = 32
[[controller.drop]]
number = 1
modules = ["outw 40001 16", "out 00001", "outw 40017 16"]
[[controller]]
node = 5
inputs = 32
input_registers = 32
[[controller.drop]]
number = 32
modules = ["in 10001", "inw 30001 16", "inw 30017 16", "in 10017"]
"#;

const LINES: [(&str, &str); 34] = [
    ("", "0 wires"),
    ("5 1 1 2 1 1 1\n", "1 wires"),
    ("5 1 2 2 1 1 1\n", "wire 1"),
    ("5 1 1 2 1 1 1", "wire 1"),
    ("5 1 1 2 1 1 1\r\n", "wire 1"),
    ("5  1 1 2 1 1 1\n", "wire 1"),
    (" 5 1 1 2 1 1 1\n", "wire 1"),
    ("5 1 1 2 1 1 1 \n", "wire 1"),
    ("5\t1 1 2 1 1 1\n", "wire 1"),
    ("\n", "wire 1"),
    ("5 1 1 2 1 1 1\n\n", "wire 2"),
    ("5 1 1 2 1 1 01\n", "wire 1"),
    ("05 1 1 2 1 1 1\n", "wire 1"),
    ("+5 1 1 2 1 1 1\n", "wire 1"),
    ("5 1 1 2 1 1\n", "wire 1"),
    ("5 1 1 2 1 1 1 1\n", "wire 1"),
    ("5 1 1 2 1 1 x\n", "wire 1"),
    ("5 1 0 2 1 1 1\n", "wire 1"),
    ("5 1 1 2 1 0 1\n", "wire 1"),
    ("5 1 1 2 1 1 0\n", "wire 1"),
    ("5 1 1 2 1 1 2\n", "wire 1"),
    ("5 1 1 2 1 1 33\n", "wire 1"),
    ("5 1 1 2 1 2 1\n", "wire 1"),
    ("4 1 1 2 1 1 1\n", "wire 1"),
    ("5 2 1 2 1 1 1\n", "wire 1"),
    ("5 1 1 3 1 1 1\n", "wire 1"),
    ("5 1 1 2 2 1 1\n", "wire 1"),
    ("5 1 1 5 1 1 1\n", "wire 1"),
    ("261 1 1 2 1 1 1\n", "wire 1"),
    ("5 1 65537 2 1 1 1\n", "wire 1"),
    ("18446744073709551621 1 1 2 1 1 1\n", "wire 1"),
    ("5 1 1 2 1 1 1\n5 1 1 2 1 1 1\n", "wire 2"),
    ("5 1 1 2 1 1 1\n%COP\n", "wire 2"),
    ("5 1 1 2 1 1 1\n5 1 1 2 1 1 1", "wire 2"),
];

const RANGES: [(&str, &str); 9] = [
    ("5 32 1 2 1 1 32\n", "1 wires"),
    ("5 32 3 2 1 2 32\n", "1 wires"),
    ("5 32 4 2 1 2 32\n", "wire 1"),
    ("5 32 3 2 1 3 32\n", "wire 1"),
    ("5 32 1 2 1 1 33\n", "wire 1"),
    ("5 32 34 2 1 33 1\n5 32 1 2 1 33 1\n", "2 wires"),
    ("5 32 1 2 1 1 17\n5 32 18 2 1 1 17\n", "2 wires"),
    ("5 32 1 2 1 1 17\n5 32 17 2 1 1 17\n", "wire 2"),
    (
        "5 32 18 2 1 1 17\n5 32 1 2 1 1 17\n5 32 18 2 1 9 1\n",
        "wire 3",
    ),
];

fn answer_at(alloc: Global, plant: &Plant, lines: &str) -> Result<String, AllocError>
    requires { CanBeWired plant.now }
{
    match read_wires(alloc, lines.as_bytes(), plant) {
        Ok(wires) => {
            let count = wires.as_slice().len();
            format!(in alloc; "{count} wires")
        }
        Err(WireEnd::BadWire(line)) => format!(in alloc; "wire {line}"),
        Err(WireEnd::NoMemory) => String::from_str(alloc, "no memory"),
    }
}

/// What lines of wires are answered with, over a plant file.
fn answer_of(alloc: Global, file: &str, lines: &str) -> Result<String, AllocError> {
    match load(alloc, Version::One, file.as_bytes()) {
        Ok(plant) => {
            tested_plants_can_be_wired();
            answer_at(alloc, &plant, lines)
        }
        Err(_) => String::from_str(alloc, "no plant"),
    }
}

#[test]
fn lines_are_answered(rt: HostRuntime) -> Result<(), Fail> {
    for (lines, due) in LINES {
        assert_eq!(rt; answer_of(rt.alloc(), PLANT, lines)?.as_str(), due);
    }
    Ok(())
}

#[test]
fn ranges_are_answered(rt: HostRuntime) -> Result<(), Fail> {
    for (lines, due) in RANGES {
        assert_eq!(rt; answer_of(rt.alloc(), WIDE, lines)?.as_str(), due);
    }
    Ok(())
}

/// An input, and the two parts that it is cut into.
const INPUTS: [(&str, &str, &str); 6] = [
    ("a\n%COP\nb\n", "a\n", "b\n"),
    ("%COP\n%COP\n", "", "%COP\n"),
    ("a\n%COP", "a\n", ""),
    ("a\n%COP\r\nb\n", "a\n%COP\r\nb\n", ""),
    ("a\n %COP\nb\n", "a\n %COP\nb\n", ""),
    (
        "name = '''\n%COP\n'''\n%COP\n",
        "name = '''\n",
        "'''\n%COP\n",
    ),
];

#[test]
fn inputs_are_cut(rt: HostRuntime) -> Result<(), Fail> {
    for (input, file, wires) in INPUTS {
        let parts = cut_after(b"%COP", input.as_bytes());
        assert!(rt; parts.0 == file.as_bytes());
        assert!(rt; parts.1 == wires.as_bytes());
    }
    Ok(())
}
