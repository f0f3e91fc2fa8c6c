//! Whole readings and writings, over sources and sinks in memory.
use plant_io::{Failed, MemSink, MemSource, ReadEnd, Sink, read_all, write_all};
use std::alloc::{AllocError, Global};
use std::process::Abort;
use std::test::Fail;

// An input, how many bytes a call gives, the limit, and the calls that fail; what comes of a
// reading up to the limit, and of a second one of what is left then. An empty text is `-`.
const READINGS: &str = "\
- 3 0 : => - -
- 3 5 : => - -
- 3 5 : 1 => Fault -
abcde 1 5 : => abcde -
abcde 9 5 : => abcde -
abcdef 1 5 : => TooLong -
abcdef 9 5 : => TooLong -
abcdefgh 4 5 : => TooLong gh
ab 2 0 : => TooLong b
abcde 2 18446744073709551615 : => abcde -
abcdef 1 9 : 2 => Fault bcdef
abcdef 2 9 : 1 => Fault abcdef
abcdef 2 9 : 2 => Fault cdef
abcdef 2 9 : 3 => Fault ef
abcdef 2 9 : 4 => Fault -
abcdef 2 9 : 5 => abcdef Fault
abcdef 2 9 : 2 3 => Fault Fault
abcdef 2 3 : 3 => TooLong Fault
";

// How many bytes a call takes, and the calls that fail; whether all letters were written, and how
// many.
const WRITINGS: &str = "\
1 : => true 26
1 : 1 => false 0
1 : 26 => false 25
1 : 27 => true 26
7 : 3 => false 14
7 : 4 => false 21
7 : 5 => true 26
99 : 2 3 => true 26
";

const LETTERS: &[u8] = b"abcdefghijklmnopqrstuvwxyz";

// A limit that no rest comes to.
const AMPLE: usize = 100;

fn number(word: &str) -> u64 {
    word.parse::<u64>().unwrap_or(0)
}

fn size(word: &str) -> usize {
    number(word) as usize
}

fn text(word: &str) -> &str {
    if word == "-" { "" } else { word }
}

fn numbers(alloc: Global, words: &str) -> Result<Vec<u64>, AllocError> {
    let mut numbers = Vec::new(alloc);
    for word in words.split_whitespace() {
        numbers.push(number(word))?;
    }
    Ok(numbers)
}

// Whether a reading came out as wanted.
fn came(read: &Result<Vec<u8>, ReadEnd>, want: &str) -> bool {
    match read {
        Ok(bytes) => bytes.as_slice() == text(want).as_bytes(),
        Err(ReadEnd::Fault) => want == "Fault",
        Err(ReadEnd::TooLong) => want == "TooLong",
        Err(ReadEnd::NoMemory) => false,
    }
}

fn source(
    rt: &impl Abort,
    alloc: Global,
    input: &str,
    piece: usize,
    fails: &str,
) -> Result<MemSource, AllocError> {
    assert!(rt; piece > 0);
    let fails = numbers(alloc, fails)?;
    let input = Vec::from_slice(alloc, text(input).as_bytes())?;
    Ok(MemSource::new(input, piece, fails))
}

fn reads(rt: &impl Abort, alloc: Global, row: &str) -> Result<(), Fail> {
    let (given, wanted) = row.split_once(" => ").ok_or("what is wanted")?;
    let (first, second) = wanted.split_once(" ").ok_or("a second reading")?;
    let (given, fails) = given.split_once(" :").ok_or("failing calls")?;
    let (input, sizes) = given.split_once(" ").ok_or("sizes")?;
    let (piece, limit) = sizes.split_once(" ").ok_or("a limit")?;
    let mut source = source(rt, alloc, input, size(piece), fails)?;
    let read = read_all(alloc, &mut source, size(limit));
    assert!(rt; came(&read, first), "{row}");
    let read = read_all(alloc, &mut source, AMPLE);
    assert!(rt; came(&read, second), "{row}");
    Ok(())
}

#[test]
fn reads_to_the_end_or_the_limit(rt: HostRuntime) -> Result<(), Fail> {
    for row in READINGS.lines() {
        reads(&rt, rt.alloc(), row)?;
    }
    Ok(())
}

fn sink(rt: &impl Abort, alloc: Global, piece: usize, fails: &str) -> Result<MemSink, AllocError> {
    assert!(rt; piece > 0);
    let fails = numbers(alloc, fails)?;
    Ok(MemSink::new(alloc, piece, fails))
}

fn writes(rt: &impl Abort, alloc: Global, row: &str) -> Result<(), Fail> {
    let (given, wanted) = row.split_once(" => ").ok_or("what is wanted")?;
    let (whole, count) = wanted.split_once(" ").ok_or("a count")?;
    let (piece, fails) = given.split_once(" :").ok_or("failing calls")?;
    let mut sink = sink(rt, alloc, size(piece), fails)?;
    let written = write_all(&mut sink, LETTERS).is_ok();
    assert_eq!(rt; written, whole == "true", "{row}");
    assert_eq!(rt; Some(sink.bytes()), LETTERS.get(..size(count)), "{row}");
    Ok(())
}

#[test]
fn writes_all_or_a_front(rt: HostRuntime) -> Result<(), Fail> {
    for row in WRITINGS.lines() {
        writes(&rt, rt.alloc(), row)?;
    }
    Ok(())
}

#[test]
fn an_empty_text_makes_no_call(rt: HostRuntime) -> Result<(), Fail> {
    let fails = Vec::from_slice(rt.alloc(), &[1])?;
    let mut sink = MemSink::new(rt.alloc(), 1, fails);
    assert_eq!(rt; write_all(&mut sink, b""), Ok(()));
    assert_eq!(rt; write_all(&mut sink, b"a"), Err(Failed));
    assert_eq!(rt; write_all(&mut sink, b"bc"), Ok(()));
    assert_eq!(rt; sink.bytes(), b"bc".as_slice());
    Ok(())
}
