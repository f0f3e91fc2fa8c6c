//! Texts of pieces, worked out by hand, and what each stands for.
use cell_text::{
    PieceName, cell_text, has_words, name_in_piece, only_word, read_cell, reference_of,
};
use plant_types::{ElementName, Ref, RefKind};
use std::alloc::Global;
use std::process::Abort;
use std::test::Fail;

/// Texts, and what is read of each: contacts, coils and shorts; timers and counters; blocks of
/// three nodes; control flow and a message; spaces and tabs.
const PIECES: &str = "\
1,1 H => Ok(Cell(Cell { row: 1, column: 1, element: Wire }))
1,2 NO 00001 => Ok(Cell(Cell { row: 1, column: 2, element: Open(Ref { kind: Coil, number: 1 }) }))
1,3 CO 00002 => Ok(Cell(Cell { row: 1, column: 3, element: Coil(Ref { kind: Coil, number: 2 }) }))
2,1 H => Ok(Cell(Cell { row: 2, column: 1, element: Wire }))
2,2 H => Ok(Cell(Cell { row: 2, column: 2, element: Wire }))
2,3 H => Ok(Cell(Cell { row: 2, column: 3, element: Wire }))
2,4 NO 00001 => Ok(Cell(Cell { row: 2, column: 4, element: Open(Ref { kind: Coil, number: 1 }) }))
2,5 CO 00003 => Ok(Cell(Cell { row: 2, column: 5, element: Coil(Ref { kind: Coil, number: 3 }) }))
7,1 H => Ok(Cell(Cell { row: 7, column: 1, element: Wire }))
7,2 H => Ok(Cell(Cell { row: 7, column: 2, element: Wire }))
7,3 CO 00001 => Ok(Cell(Cell { row: 7, column: 3, element: Coil(Ref { kind: Coil, number: 1 }) }))
7,11 NC 19984 => \
    Ok(Cell(Cell { row: 7, column: 11, \
    element: Closed(Ref { kind: Input, number: 9984 }) }))
2,1 PT 00007 => Ok(Cell(Cell { row: 2, column: 1, element: Rise(Ref { kind: Coil, number: 7 }) }))
2,2 NT 00008 => Ok(Cell(Cell { row: 2, column: 2, element: Fall(Ref { kind: Coil, number: 8 }) }))
2,3 CL 00009 => Ok(Cell(Cell { row: 2, column: 3, element: Latch(Ref { kind: Coil, number: 9 }) }))
6,10 V => Ok(Short(Short { row: 6, column: 10 }))
1,1 V => Ok(Short(Short { row: 1, column: 1 }))
1,2 T1.0 7 40001 => \
    Ok(Cell(Cell { row: 1, column: 2, \
    element: Timer { unit: Second, preset: Const(7), acc: Ref { kind: Register, number: 1 } } }))
6,11 DCTR 30001 40002 => \
    Ok(Cell(Cell { row: 6, column: 11, \
    element: Counter { up: false, preset: At(Ref { kind: InputRegister, number: 1 }), \
    acc: Ref { kind: Register, number: 2 } } }))
4,1 ADD 300 0 40012 => \
    Ok(Cell(Cell { row: 4, column: 1, \
    element: Math { op: Add, top: Const(300), mid: Const(0), \
    low: Ref { kind: Register, number: 12 } } }))
1,1 FOUT 40001 40012 10 => \
    Ok(Cell(Cell { row: 1, column: 1, \
    element: Move { op: FirstOut, top: Ref { kind: Register, number: 1 }, \
    mid: Ref { kind: Register, number: 12 }, length: 10 } }))
1,2 MBIT 5 40011 1 => \
    Ok(Cell(Cell { row: 1, column: 2, \
    element: Matrix { op: Mbit, top: Const(5), mid: Ref { kind: Register, number: 11 }, \
    length: 1 } }))
1,1 SENS 1 30001 100 => \
    Ok(Cell(Cell { row: 1, column: 1, \
    element: Matrix { op: Sens, top: Const(1), mid: Ref { kind: InputRegister, number: 1 }, \
    length: 100 } }))
5,3 XOR 30001 40002 3 => \
    Ok(Cell(Cell { row: 5, column: 3, \
    element: Matrix { op: Xor, top: At(Ref { kind: InputRegister, number: 1 }), \
    mid: Ref { kind: Register, number: 2 }, length: 3 } }))
1,1 SKP 30001 => \
    Ok(Cell(Cell { row: 1, column: 1, \
    element: Skip(At(Ref { kind: InputRegister, number: 1 })) }))
1,1 LAB 255 => Ok(Cell(Cell { row: 1, column: 1, element: Label(255) }))
6,11 JSR 7 => Ok(Cell(Cell { row: 6, column: 11, element: Call(Const(7)) }))
7,2 RET => Ok(Cell(Cell { row: 7, column: 2, element: Return }))
1,2 MSTR 40001 40011 100 => \
    Ok(Cell(Cell { row: 1, column: 2, \
    element: Mstr { control: Ref { kind: Register, number: 1 }, \
    area: Ref { kind: Register, number: 11 }, length: 100 } }))
\t 1,2\tNO   00001  => \
    Ok(Cell(Cell { row: 1, column: 2, \
    element: Open(Ref { kind: Coil, number: 1 }) }))
";

/// Texts that do not read: position, name, number of operands, their forms; the second is empty.
const UNREAD: &str = "\
1,1

0,1 H
8,1 ADD 1 1 20001
1,12 H
1,01 H
1.1 H
11 H
,1 H
1, H
10001,1 H
7,1 V
1,1 H\u{a0}
1,1 add 1 1 40001
1,1 T01 7 40001
1,1 MSTR 1 40011 1
1,1 SKP
1,1 LAB 00001
1,1 JSR 1 2
1,1 RET 1
1,1 V 00001
1,1 CO
1,1 T1.0 7
1,1 UCTR 7 40001 1
1,1 ADD 1 40001
1,1 NO 7
1,1 NO 0000a
1,1 R>T 5 40001 0
1,1 FOUT 5 20001 256
1,1 AND 5 40001 2
1,1 AND 5 40001 101
1,1 ADD 007 1 40001
1,1 ADD +7 1 40001
1,1 ADD 123456 1 40001
1,1 ADD 1 1 12
1,1 SRCH 40001 40002 40003
1,1 MBIT 20001 40001 00
";

/// Texts with a constant outside its range, some with a reference that is none besides.
const OUT_OF_RANGE: &str = "\
1,1 R>T 20001 40001 0
1,1 T>T 30001 30002 0
1,1 FIN 40001 40002 256
1,1 FOUT 30001 40002 9999
1,1 AND 40001 40002 101
1,1 MBIT 5 30001 101
1,1 SENS 5 30001 0
1,1 CMPR 00001 49985 0
1,1 LAB 0
1,1 LAB 256
1,1 MSTR 30001 40011 101
";

/// Texts with five digits that are no reference, or one of a kind that is not taken.
const NO_REFERENCE: &str = "\
1,1 NO 50001
1,1 NO 00000
1,1 NO 30001
1,1 CO 10001
1,1 PT 40001
1,1 CL 09985
1,1 T1.0 7 30001
1,1 DCTR 00001 40001
1,1 ADD 12345 1 40001
1,1 SUB 1 20001 40001
1,1 MUL 1 1 30001
1,1 DIV 10000 1 40001
1,1 T>R 00001 40001 1
1,1 BLKM 30001 30002 1
1,1 FIN 30001 30002 1
1,1 FOUT 30001 40002 1
1,1 FOUT 40001 30002 1
1,1 CMPR 00001 40001 1
1,1 BROT 30001 30002 1
1,1 MBIT 1 30001 100
1,1 MBIT 10001 40001 1
1,1 SENS 1 00001 1
1,1 SKP 10000
1,1 JSR 00001
1,1 MSTR 30001 40011 1
1,1 MSTR 40001 30011 1
";

/// Each name at least once, with the ends of the ranges.
const CANONICAL: &str = "\
1,1 NO 10001
1,1 NC 00001
1,1 PT 10016
1,1 NT 09984
1,1 CO 00001
1,1 CL 09984
7,11 H
6,11 V
1,1 T1.0 9 40001
1,1 T0.1 30001 40001
1,1 T.01 40002 49984
1,1 UCTR 9999 40001
1,1 DCTR 0 40001
1,1 ADD 300 0 40012
1,1 SUB 30001 40002 40003
1,1 MUL 1 2 40003
1,1 DIV 40001 7 40003
1,1 DIV 9999 30001 40003
1,1 R>T 30001 40002 1
1,1 T>R 40001 40002 255
1,1 T>T 30001 40002 10
1,1 BLKM 30001 40002 10
1,1 FIN 30001 40002 255
1,1 FOUT 40001 40002 255
1,1 SRCH 30001 40002 100
1,1 AND 30001 40002 1
1,1 OR 40001 40002 100
1,1 XOR 30001 40002 2
1,1 COMP 30001 40002 3
1,1 BROT 30001 40002 4
1,1 CMPR 30001 40002 5
1,1 MBIT 30001 40002 100
1,1 MBIT 1600 40002 100
1,1 SENS 40001 40002 6
1,1 SENS 1 30001 100
1,1 SKP 0
1,1 LAB 1
1,1 JSR 40001
1,1 JSR 9999
1,1 RET
1,1 MSTR 40001 40011 1
";

/// A text is read so.
fn reads(rt: &impl Abort, alloc: Global, text: &str, answer: &str) -> Result<(), Fail> {
    let found = format!(in alloc; "{:?}", read_cell(text))?;
    assert_eq!(rt; found.as_str(), answer, "{text}");
    Ok(())
}

fn all_read(rt: &impl Abort, alloc: Global, texts: &str, answer: &str) -> Result<(), Fail> {
    for text in texts.lines() {
        reads(rt, alloc, text, answer)?;
    }
    Ok(())
}

#[test]
fn pieces_stand_for_cells_and_shorts(rt: HostRuntime) -> Result<(), Fail> {
    for row in PIECES.lines() {
        let (text, answer) = row.split_once(" => ").ok_or("an answer")?;
        reads(&rt, rt.alloc(), text, answer)?;
    }
    Ok(())
}

#[test]
fn other_pieces_have_faults(rt: HostRuntime) -> Result<(), Fail> {
    all_read(&rt, rt.alloc(), UNREAD, "Err(BadCell)")?;
    all_read(&rt, rt.alloc(), OUT_OF_RANGE, "Err(BadValue)")?;
    all_read(&rt, rt.alloc(), NO_REFERENCE, "Err(BadRef)")
}

/// A text is read and written back.
fn is_written_back(rt: &impl Abort, alloc: Global, text: &str) -> Result<(), Fail> {
    let piece = read_cell(text).ok().ok_or("a piece")?;
    let again = cell_text(alloc, &piece)?;
    assert_eq!(rt; again.as_str(), text);
    Ok(())
}

#[test]
fn canonical_texts_are_written_back(rt: HostRuntime) -> Result<(), Fail> {
    for text in CANONICAL.lines() {
        is_written_back(&rt, rt.alloc(), text)?;
    }
    Ok(())
}

#[test]
fn names_are_found(rt: HostRuntime) {
    let message = PieceName::Element(ElementName::Mstr);
    let short = PieceName::Short;
    let found = [
        name_in_piece(b"9,9 MSTR"),
        name_in_piece(b"1,1 V 7"),
        name_in_piece(b"1,1 MST"),
        name_in_piece(b"MSTR"),
    ];
    assert_eq!(rt; found, [Some(message), Some(short), None, None]);
}

#[test]
fn words_are_told_apart(rt: HostRuntime) {
    assert!(rt; has_words(b" 1 - ", &["1", "-"]));
    assert!(rt; !has_words(b"1 - -", &["1", "-"]));
    assert_eq!(rt; only_word(b"\t00001 "), Some(b"00001".as_slice()));
    assert!(rt; only_word(b"a b").is_none());
}

#[test]
fn digits_are_references(rt: HostRuntime) {
    let last = Ref {
        kind: RefKind::Input,
        number: 9984,
    };
    let found = [reference_of(b"19984"), reference_of(b"19985")];
    assert_eq!(rt; found, [Some(last), None]);
}
