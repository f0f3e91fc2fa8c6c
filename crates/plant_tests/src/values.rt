//! Values from outside: each public call once, with ample memory.
ghost use Rattle.std.specs.Prelude.{IfOk};
ghost use Rattle.plant_types.specs.Store.{Keeps};

use plant_types::{
    Block, Cell, Copied, Element, List, MapRam, Network, NodePower, Operand, Part, Pdu, Place,
    PlantFault, Ref, RefKind, RefStore, Short, Unit, Words, discretes_follow,
};
use std::alloc::{AllocError, Global};
use std::process::Abort;

mod checks;
mod copies;

const COIL_16: Ref = Ref {
    kind: RefKind::Coil,
    number: 16,
};

const INPUT_16: Ref = Ref {
    kind: RefKind::Input,
    number: 16,
};

const REGISTER_3: Ref = Ref {
    kind: RefKind::Register,
    number: 3,
};

fn at(kind: RefKind, number: u16) -> Ref {
    Ref { kind, number }
}

#[test]
fn a_store_holds_its_references(rt: HostRuntime) -> Result<(), AllocError> {
    let ram = MapRam::new(rt.alloc(), 16, 0, 2, 3)?;
    let found = [
        ram.has(at(RefKind::Coil, 0)),
        ram.has(at(RefKind::Coil, 1)),
        ram.has(at(RefKind::Coil, 17)),
        ram.has(at(RefKind::Input, 1)),
        ram.has(at(RefKind::InputRegister, 2)),
        ram.has(at(RefKind::InputRegister, 3)),
        ram.has(at(RefKind::Register, 4)),
    ];
    assert_eq!(rt; found, [false, true, false, false, true, false, false]);
    Ok(())
}

/// Sets a discrete of a store, and answers what it has then.
fn bit_after(rt: &impl Abort, ram: &mut MapRam, on: bool) -> bool {
    assert!(rt; ram.has(COIL_16));
    ram.set_bit(COIL_16, on);
    assert!(rt; ram.has(COIL_16));
    ram.bit(COIL_16)
}

#[test]
fn a_store_holds_bits(rt: HostRuntime) -> Result<(), AllocError> {
    let mut ram = MapRam::new(rt.alloc(), 16, 0, 2, 3)?;
    assert!(rt; ram.has(COIL_16));
    assert!(rt; !ram.bit(COIL_16));
    let found = [
        bit_after(&rt, &mut ram, true),
        bit_after(&rt, &mut ram, false),
    ];
    assert_eq!(rt; found, [true, false]);
    Ok(())
}

#[test]
fn a_store_holds_words(rt: HostRuntime) -> Result<(), AllocError> {
    let mut ram = MapRam::new(rt.alloc(), 16, 0, 2, 3)?;
    assert!(rt; ram.has(REGISTER_3));
    assert_eq!(rt; ram.word(REGISTER_3), 0);
    ram.set_word(REGISTER_3, 65_535);
    assert!(rt; ram.has(REGISTER_3));
    assert_eq!(rt; ram.word(REGISTER_3), 65_535);
    Ok(())
}

/// A store, and one of its discretes alone.
fn stores(alloc: Global) -> Result<(MapRam, MapRam), AllocError>
    ensures { IfOk result (λ stores. Keeps stores.1 stores.0) }
{
    discretes_follow();
    let ram = MapRam::new(alloc, 16, 16, 0, 3)?;
    let past = MapRam::new(alloc, 16, 16, 0, 0)?;
    Ok((ram, past))
}

#[test]
fn a_store_takes_numbers_from_another(rt: HostRuntime) -> Result<(), AllocError> {
    let (mut ram, mut past) = stores(rt.alloc())?;
    assert!(rt; ram.has(COIL_16));
    ram.set_bit(COIL_16, true);
    past.copy_from(&ram);
    assert!(rt; past.has(COIL_16));
    assert!(rt; past.bit(COIL_16));
    assert!(rt; past.has(INPUT_16));
    assert!(rt; !past.bit(INPUT_16));
    assert!(rt; !past.has(REGISTER_3));
    Ok(())
}

#[test]
fn operands_have_numbers(rt: HostRuntime) -> Result<(), AllocError> {
    let mut ram = MapRam::new(rt.alloc(), 0, 0, 0, 3)?;
    assert!(rt; ram.has(REGISTER_3));
    ram.set_word(REGISTER_3, 65_535);
    assert!(rt; ram.has(REGISTER_3));
    assert_eq!(rt; Operand::At(REGISTER_3).number(&ram), 65_535);
    assert_eq!(rt; Operand::Const(9999).number(&ram), 9999);
    Ok(())
}

#[test]
fn a_list_has_what_was_pushed(rt: HostRuntime) -> Result<(), AllocError> {
    let mut list = List::new(rt.alloc());
    list.push(7u16)?;
    assert!(rt; list.as_slice() == [7].as_slice());
    Ok(())
}

#[test]
fn words_are_those_that_were_given(rt: HostRuntime) -> Result<(), AllocError> {
    let words = Words::of(rt.alloc(), &[7])?;
    assert!(rt; words.words() == [7].as_slice());
    Ok(())
}

const TIMER: Cell = Cell {
    row: 1,
    column: 2,
    element: Element::Timer {
        unit: Unit::Tenth,
        preset: Operand::Const(50),
        acc: REGISTER_3,
    },
};

const SHORT: Short = Short { row: 1, column: 11 };

fn network(alloc: Global) -> Result<Network, AllocError> {
    let mut cells = List::new(alloc);
    cells.push(TIMER)?;
    let mut shorts = List::new(alloc);
    shorts.push(SHORT)?;
    Ok(Network { cells, shorts })
}

fn network_copy(alloc: Global) -> Result<Network, AllocError> {
    network(alloc)?.copied(alloc)
}

#[test]
fn a_network_and_its_copy(rt: HostRuntime) -> Result<(), AllocError> {
    let copy = network_copy(rt.alloc())?;
    assert!(rt; copy.cells.as_slice() == [TIMER].as_slice());
    assert!(rt; copy.shorts.as_slice() == [SHORT].as_slice());
    Ok(())
}

/// Whether bytes can be a request or a reply, whose copy has them then.
fn can_be_sent(alloc: Global, bytes: &[u8]) -> Result<bool, AllocError> {
    let Some(pdu) = Pdu::of(alloc, bytes)? else {
        return Ok(false);
    };
    let copy = pdu.copied(alloc)?;
    Ok(copy.bytes() == bytes)
}

#[test]
fn requests_have_bounds(rt: HostRuntime) -> Result<(), AllocError> {
    let alloc = rt.alloc();
    let bytes = [3u8; 254];
    let found = [
        can_be_sent(alloc, &bytes[..0])?,
        can_be_sent(alloc, &bytes[..1])?,
        can_be_sent(alloc, &bytes[..253])?,
        can_be_sent(alloc, &bytes)?,
    ];
    assert_eq!(rt; found, [false, true, true, false]);
    Ok(())
}

#[test]
fn blocks_have_their_words(rt: HostRuntime) -> Result<(), AllocError> {
    let block = Block::of(&[1, 2, 65_535]).copied(rt.alloc())?;
    assert!(rt; block.words() == [1, 2, 65_535].as_slice());
    assert!(rt; Block::of(&[]).words().is_empty());
    Ok(())
}

#[test]
fn texts_of_references(rt: HostRuntime) -> Result<(), AllocError> {
    let last = at(RefKind::Register, 9984);
    let text = format!(in rt.alloc(); "{COIL_16} {last}")?;
    assert!(rt; text.as_str() == "00016 49984");
    Ok(())
}

#[test]
fn texts_of_faults_in_cells(rt: HostRuntime) -> Result<(), AllocError> {
    let place = Place::cell(1, 1, 12, 4);
    let text = format!(in rt.alloc(); "{} {place}", PlantFault::CoilTwice)?;
    assert!(rt; text.as_str() == "8 CoilTwice controller 1 segment 1 network 12 cell 4");
    Ok(())
}

#[test]
fn texts_of_faults_of_a_plant(rt: HostRuntime) -> Result<(), AllocError> {
    let text = format!(in rt.alloc(); "{} {}", PlantFault::BadToml, Place::PLANT)?;
    assert!(rt; text.as_str() == "1 BadToml plant");
    Ok(())
}

#[test]
fn texts_of_faults_of_power_rows(rt: HostRuntime) -> Result<(), AllocError> {
    let text = format!(in rt.alloc(); "{} {}", PlantFault::BadPower, Place::power(1, 1))?;
    assert!(rt; text.as_str() == "15 BadPower controller 1 power 1");
    Ok(())
}

#[test]
fn texts_of_faults_of_networks(rt: HostRuntime) -> Result<(), AllocError> {
    let network = Place {
        part: Part::Network,
        at: [2, 0, 0, 0],
    };
    let text = format!(in rt.alloc(); "{} {network}", PlantFault::BadNetwork)?;
    assert!(rt; text.as_str() == "16 BadNetwork network 2");
    let bridge = Place {
        part: Part::Bridge,
        at: [1, 0, 0, 0],
    };
    let text = format!(in rt.alloc(); "{} {bridge}", PlantFault::BadNetwork)?;
    assert!(rt; text.as_str() == "16 BadNetwork bridge 1");
    Ok(())
}

#[test]
fn nodes_have_power_by_bits(rt: HostRuntime) {
    let nodes = NodePower::of_bits(5);
    assert_eq!(rt;
        nodes,
        NodePower {
            top: true,
            middle: false,
            bottom: true
        }
    );
    assert_eq!(rt; nodes.bits(), 5);
    assert_eq!(rt; NodePower::OFF.bits(), 0);
}
