//! Each public call once with ample memory, and many sets beside the plain store.
ghost use Rattle.std.specs.Prelude.{IfOk};
ghost use Rattle.plant_types.specs.Store.{Keeps};

use plant_types::{MapRam, Ref, RefKind, RefStore, discretes_follow};
use state_ram::PackedRam;
use std::alloc::{AllocError, Global};

const COIL_17: Ref = Ref {
    kind: RefKind::Coil,
    number: 17,
};

const COIL_32: Ref = Ref {
    kind: RefKind::Coil,
    number: 32,
};

const REGISTER_3: Ref = Ref {
    kind: RefKind::Register,
    number: 3,
};

/// A store, and one of its discretes alone.
fn stores(alloc: Global) -> Result<(PackedRam, PackedRam), AllocError>
    ensures { IfOk result (λ stores. Keeps stores.1 stores.0) }
{
    discretes_follow();
    let ram = PackedRam::new(alloc, 32, 16, 0, 3)?;
    let past = PackedRam::new(alloc, 32, 16, 0, 0)?;
    Ok((ram, past))
}

/// The next of a sequence of numbers in no order.
fn number_after(number: u32) -> u32 {
    number.wrapping_mul(1_664_525).wrapping_add(1_013_904_223)
}

fn reference_of(number: u32) -> Ref {
    let kind = match number / 1024 % 4 {
        0 => RefKind::Coil,
        1 => RefKind::Input,
        2 => RefKind::InputRegister,
        _ => RefKind::Register,
    };
    Ref {
        kind,
        number: (number / 65_536 % 64) as u16,
    }
}

/// Sets a reference, where it is there.
fn set<R: RefStore>(ram: &mut R, at: Ref, value: u16) {
    if !ram.has(at) {
        return;
    }
    match at.kind {
        RefKind::Coil | RefKind::Input => ram.set_bit(at, value % 3 == 1),
        RefKind::InputRegister | RefKind::Register => ram.set_word(at, value),
    }
}

fn value<R: RefStore>(ram: &R, at: Ref) -> Option<u16> {
    if !ram.has(at) {
        return None;
    }
    match at.kind {
        RefKind::Coil | RefKind::Input => Some(u16::from(ram.bit(at))),
        RefKind::InputRegister | RefKind::Register => Some(ram.word(at)),
    }
}

/// The sixteen coils from one on as a word, where they are there.
fn group(ram: &PackedRam, number: u16) -> Option<u16> {
    let at = Ref {
        kind: RefKind::Coil,
        number,
    };
    if number % 16 != 1 || !ram.has(at) {
        return None;
    }
    Some(ram.group16(at))
}

/// Sets them, where they are there.
fn set_group(ram: &mut PackedRam, number: u16, word: u16) {
    let at = Ref {
        kind: RefKind::Coil,
        number,
    };
    if number % 16 == 1 && ram.has(at) {
        ram.set_group16(at, word);
    }
}

#[test]
fn sixteen_discretes_are_a_word(rt: HostRuntime) -> Result<(), AllocError> {
    let (mut ram, _past) = stores(rt.alloc())?;
    set(&mut ram, COIL_17, 1);
    assert_eq!(rt; group(&ram, 17), Some(0x8000));
    set_group(&mut ram, 17, 1);
    set(&mut ram, REGISTER_3, 65_535);
    let coils = (value(&ram, COIL_17), value(&ram, COIL_32));
    assert_eq!(rt; coils, (Some(0), Some(1)));
    assert_eq!(rt; value(&ram, REGISTER_3), Some(65_535));
    Ok(())
}

#[test]
fn a_copy_has_the_discretes_alone(rt: HostRuntime) -> Result<(), AllocError> {
    let (mut ram, mut past) = stores(rt.alloc())?;
    assert!(rt; ram.has(COIL_32));
    ram.set_bit(COIL_32, true);
    past.copy_from(&ram);
    assert!(rt; past.has(COIL_32));
    assert!(rt; past.bit(COIL_32));
    assert!(rt; !past.has(REGISTER_3));
    Ok(())
}

#[test]
fn the_first_input_has_the_highest_bit(rt: HostRuntime) -> Result<(), AllocError> {
    let mut ram = PackedRam::new(rt.alloc(), 16, 16, 0, 0)?;
    let first = Ref {
        kind: RefKind::Input,
        number: 1,
    };
    assert!(rt; ram.has(first));
    ram.set_group16(first, 32_768);
    for kind in [RefKind::Coil, RefKind::Input] {
        for number in 1..17 {
            let at = Ref { kind, number };
            assert_eq!(rt; value(&ram, at), Some(u16::from(at == first)), "{at}");
        }
    }
    Ok(())
}

#[test]
fn both_stores_hold_the_same(rt: HostRuntime) -> Result<(), AllocError> {
    let mut plain = MapRam::new(rt.alloc(), 48, 32, 40, 50)?;
    let mut ram = PackedRam::new(rt.alloc(), 48, 32, 40, 50)?;
    let mut number = 984;
    for _ in 0..600 {
        number = number_after(number);
        let at = reference_of(number);
        set(&mut plain, at, (number / 7 % 65_536) as u16);
        set(&mut ram, at, (number / 7 % 65_536) as u16);
    }
    for kind in [
        RefKind::Coil,
        RefKind::Input,
        RefKind::InputRegister,
        RefKind::Register,
    ] {
        for number in 0..64 {
            let at = Ref { kind, number };
            assert_eq!(rt; value(&ram, at), value(&plain, at), "{at}");
        }
    }
    Ok(())
}
