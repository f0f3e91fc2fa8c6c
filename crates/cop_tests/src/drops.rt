//! Drops with ample memory.
use plant_types::{ControllerPlan, IoDrop, List, Module, ModuleKind, ScriptRow, Words};
use std::alloc::{AllocError, Global};
use std::test::Fail;
use traffic_cop::Cop;

const fn io_module(kind: ModuleKind, first: u16, count: u16) -> Module {
    Module { kind, first, count }
}

const INPUTS: Module = Module {
    kind: ModuleKind::In,
    first: 1,
    count: 1,
};

/// A drop of these modules, whose script has these rows.
fn drop_of(
    alloc: Global,
    number: u8,
    modules: &[Module],
    rows: &[&[u16]],
) -> Result<IoDrop, AllocError> {
    let mut script = List::new(alloc);
    for row in rows {
        script.push(ScriptRow::Row(Words::of(alloc, row)?))?;
    }
    Ok(IoDrop {
        number,
        modules: List::from_vec(Vec::from_slice(alloc, modules)?),
        script,
    })
}

/// A drop that answers once, and then no more.
fn silent_drop(alloc: Global) -> Result<IoDrop, AllocError> {
    let mut found = drop_of(alloc, 1, &[INPUTS], &[&[0x8000]])?;
    found.script.push(ScriptRow::Silent)?;
    Ok(found)
}

#[test]
fn a_cop_keeps_its_drops(rt: HostRuntime) -> Result<(), AllocError> {
    let alloc = rt.alloc();
    let _none = Cop::new(alloc, &[])?;
    let mut drops = List::new(alloc);
    drops.push(silent_drop(alloc)?)?;
    let _one = Cop::new(alloc, drops.as_slice())?;
    Ok(())
}

/// What is answered of a plan with 32 discretes and 40 registers of each kind that has these drops.
fn answer_to(alloc: Global, drops: List<IoDrop>) -> Result<String, AllocError> {
    let plan = ControllerPlan {
        node: 1,
        network: 0,
        coils: 32,
        inputs: 32,
        input_registers: 40,
        registers: 40,
        panel: List::new(alloc),
        orders: List::new(alloc),
        power: List::new(alloc),
        drops,
        segments: List::new(alloc),
    };
    match Cop::check(&plan) {
        Ok(()) => String::from_str(alloc, "passes"),
        Err((fault, place)) => format!(in alloc; "{fault} {place}"),
    }
}

/// The answer to one drop.
fn answer_to_one(
    alloc: Global,
    number: u8,
    modules: &[Module],
    rows: &[&[u16]],
) -> Result<String, AllocError> {
    let mut drops = List::new(alloc);
    drops.push(drop_of(alloc, number, modules, rows)?)?;
    answer_to(alloc, drops)
}

#[test]
fn drops_pass(rt: HostRuntime) -> Result<(), Fail> {
    let alloc = rt.alloc();
    assert_eq!(rt; answer_to(alloc, List::new(alloc))?.as_str(), "passes");
    let mut drops = List::new(alloc);
    drops.push(silent_drop(alloc)?)?;
    drops.push(drop_of(alloc, 32, &[], &[])?)?;
    assert_eq!(rt; answer_to(alloc, drops)?.as_str(), "passes");
    let words = [io_module(ModuleKind::InWords, 25, 16); 4];
    let row = [0x1234; 64];
    assert_eq!(rt;
        answer_to_one(alloc, 1, &words, &[&row])?.as_str(),
        "passes"
    );
    let words = [io_module(ModuleKind::OutWords, 1, 16); 4];
    assert_eq!(rt; answer_to_one(alloc, 1, &words, &[&[]])?.as_str(), "passes");
    Ok(())
}

#[test]
fn numbers_are_refused(rt: HostRuntime) -> Result<(), Fail> {
    let alloc = rt.alloc();
    let zero = answer_to_one(alloc, 0, &[], &[])?;
    assert_eq!(rt; zero.as_str(), "3 BadValue controller 1 drop 1");
    let high = answer_to_one(alloc, 33, &[], &[])?;
    assert_eq!(rt; high.as_str(), "3 BadValue controller 1 drop 1");
    let many = answer_to_one(alloc, 1, &[INPUTS; 17], &[])?;
    assert_eq!(rt; many.as_str(), "13 TooLarge controller 1 drop 1");
    let mut drops = List::new(alloc);
    drops.push(drop_of(alloc, 7, &[], &[])?)?;
    drops.push(drop_of(alloc, 7, &[io_module(ModuleKind::In, 2, 1)], &[])?)?;
    assert_eq!(rt;
        answer_to(alloc, drops)?.as_str(),
        "10 BadDrop controller 1 drop 2"
    );
    Ok(())
}

#[test]
fn modules_are_refused(rt: HostRuntime) -> Result<(), Fail> {
    let alloc = rt.alloc();
    let apart = answer_to_one(alloc, 1, &[INPUTS, io_module(ModuleKind::Out, 2, 1)], &[])?;
    assert_eq!(rt; apart.as_str(), "10 BadDrop controller 1 drop 1 module 2");
    let wide = answer_to_one(alloc, 1, &[io_module(ModuleKind::InWords, 1, 17)], &[])?;
    assert_eq!(rt; wide.as_str(), "10 BadDrop controller 1 drop 1 module 1");
    let outside = answer_to_one(alloc, 1, &[io_module(ModuleKind::In, 33, 1)], &[])?;
    assert_eq!(rt; outside.as_str(), "5 BadRef controller 1 drop 1 module 1");
    let short = answer_to_one(alloc, 1, &[io_module(ModuleKind::OutWords, 26, 16)], &[])?;
    assert_eq!(rt; short.as_str(), "5 BadRef controller 1 drop 1 module 1");
    let words = [io_module(ModuleKind::InWords, 25, 16); 5];
    let many = answer_to_one(alloc, 1, &words, &[&[1]])?;
    assert_eq!(rt; many.as_str(), "13 TooLarge controller 1 drop 1");
    Ok(())
}

#[test]
fn rows_are_refused(rt: HostRuntime) -> Result<(), Fail> {
    let alloc = rt.alloc();
    let short = answer_to_one(alloc, 1, &[INPUTS], &[&[1], &[]])?;
    assert_eq!(rt; short.as_str(), "11 BadScript controller 1 drop 1 script 2");
    let long = answer_to_one(alloc, 1, &[io_module(ModuleKind::Out, 1, 1)], &[&[0]])?;
    assert_eq!(rt; long.as_str(), "11 BadScript controller 1 drop 1 script 1");
    Ok(())
}
