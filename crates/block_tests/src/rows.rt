//! Rows of blocks, and what they share.
//!
//! A row has a block with its numbers, the registers before, what the block tells, and the
//! registers after, as `R>T 40001 40002 3 1 : 7 0 1 2 3 => 1 : 7 1 7 2 3`. Registers count from
//! 40001; `@9` goes on at 40009. A number behind an `x` is hexadecimal. Of the bits of inputs and
//! outputs 1 is the top node, 2 the middle one and 4 the bottom one.
ghost use Rattle.std.specs.Prelude.{◌≡◌};
ghost use Rattle.std.specs.Bool.{OnTrue};
ghost use Rattle.plant_types.specs.Store.{HasRegisters};

use plant_types::{MapRam, Ref, RefKind, RefStore, ref_after};
use std::alloc::Global;
use std::process::Abort;
use std::test::Fail;

// How many registers there are in the store of a row.
const REGISTERS: u16 = 600;

// The one input register, and what it holds.
const INPUT: Ref = Ref {
    kind: RefKind::InputRegister,
    number: 1,
};

const HELD: u16 = 2;

#[derive(Clone, Copy)]
pub(crate) struct Row<'a> {
    pub(crate) text: &'a str,
    pub(crate) block: &'a str,
    pub(crate) numbers: [u64; 5],
    pub(crate) before: &'a str,
    pub(crate) tells: [u64; 2],
    pub(crate) after: &'a str,
}

fn hexadecimal(digits: &str) -> u64 {
    let mut number = 0u64;
    for digit in digits.chars() {
        let digit = digit.to_digit(16).unwrap_or(0);
        number = number.wrapping_mul(16).wrapping_add(u64::from(digit));
    }
    number
}

fn number(word: &str) -> u64 {
    match word.strip_prefix("x") {
        None => word.parse::<u64>().unwrap_or(0),
        Some(digits) => hexadecimal(digits),
    }
}

fn next_number(word: Option<&str>) -> u64 {
    match word {
        None => 0,
        Some(word) => number(word),
    }
}

pub(crate) fn small(number: u64) -> u16 {
    u16::try_from(number).unwrap_or(0)
}

pub(crate) fn bits(number: u64) -> u8 {
    u8::try_from(number).unwrap_or(0)
}

// The reference of a number, as plants write it.
pub(crate) fn reference(number: u64) -> Ref {
    let kind = if number < 40_000 {
        RefKind::InputRegister
    } else {
        RefKind::Register
    };
    Ref {
        kind,
        number: small(number % 10_000),
    }
}

fn numbers(words: &str) -> [u64; 5] {
    let mut words = words.split_whitespace();
    let first = next_number(words.next());
    let second = next_number(words.next());
    let third = next_number(words.next());
    let fourth = next_number(words.next());
    let fifth = next_number(words.next());
    [first, second, third, fourth, fifth]
}

pub(crate) fn row_of(text: &str) -> Result<Row<'_>, Fail> {
    let (left, right) = text.split_once(" => ").ok_or("what it tells")?;
    let (call, before) = left.split_once(" : ").ok_or("registers before")?;
    let (told, after) = right.split_once(" : ").ok_or("registers after")?;
    let (block, words) = call.split_once(" ").ok_or("numbers")?;
    let [outputs, edge, _, _, _] = numbers(told);
    Ok(Row {
        text,
        block,
        numbers: numbers(words),
        before,
        tells: [outputs, edge],
        after,
    })
}

pub(crate) fn register(number: u16) -> Ref
    ensures { result ≡ record { kind = RefKind.Register; number = number } }
{
    Ref {
        kind: RefKind::Register,
        number,
    }
}

// Whether so many registers stand from one on.
pub(crate) fn has_run(ram: &MapRam, at: Ref, count: u16) -> bool
    ensures { OnTrue result (HasRegisters ram.now at count) }
{
    let is_word = at.kind == RefKind::Register || at.kind == RefKind::InputRegister;
    if !is_word || at.number > 9985 || count > 9985 - at.number {
        return false;
    }
    for i in 0..count {
        if !ram.has(ref_after(at, i)) {
            return false;
        }
    }
    true
}

pub(crate) fn set(rt: &impl Abort, ram: &mut MapRam, number: u16, value: u16) {
    let at = register(number);
    assert!(rt; ram.has(at));
    ram.set_word(at, value);
}

pub(crate) fn get(rt: &impl Abort, ram: &MapRam, number: u16) -> u16 {
    let at = register(number);
    assert!(rt; ram.has(at));
    ram.word(at)
}

// The registers of a row are set.
fn sets(rt: &impl Abort, ram: &mut MapRam, words: &str) {
    let mut at = 1u16;
    for word in words.split_whitespace() {
        match word.strip_prefix("@") {
            Some(place) => at = small(number(place)),
            None => {
                set(rt, ram, at, small(number(word)));
                at = at.wrapping_add(1);
            }
        }
    }
}

// The store of a row before it is solved.
pub(crate) fn store(rt: &impl Abort, alloc: Global, row: &Row<'_>) -> Result<MapRam, Fail> {
    let mut ram = MapRam::new(alloc, 0, 0, 1, REGISTERS)?;
    assert!(rt; ram.has(INPUT));
    ram.set_word(INPUT, HELD);
    sets(rt, &mut ram, row.before);
    Ok(ram)
}

// The store has what the row says.
fn holds(rt: &impl Abort, ram: &MapRam, row: &Row<'_>) {
    let mut at = 1u16;
    for word in row.after.split_whitespace() {
        match word.strip_prefix("@") {
            Some(place) => at = small(number(place)),
            None => {
                let found = get(rt, ram, at);
                assert_eq!(rt; found, small(number(word)), "{}", row.text);
                at = at.wrapping_add(1);
            }
        }
    }
    assert!(rt; ram.has(INPUT));
    assert_eq!(rt; ram.word(INPUT), HELD, "{}", row.text);
}

// The block told what the row says, and left the store so.
pub(crate) fn tells(rt: &impl Abort, ram: &MapRam, row: &Row<'_>, outputs: u8, edge: bool) {
    let told = [u64::from(outputs), u64::from(edge)];
    assert_eq!(rt; told, row.tells, "{}", row.text);
    holds(rt, ram, row);
}
