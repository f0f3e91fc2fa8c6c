//! Copies with ample memory: each call answers a value that equals its own.
use plant_types::{
    Block, BridgePlan, ControllerPlan, Copied, Element, Fate, HostAsk, HostPlan, IoDrop, List,
    MathOp, MatrixOp, Module, ModuleKind, MoveOp, NetPlan, Network, NodePower, Operand, OrderRow,
    Part, Pdu, Place, Plant, PlantFault, PowerRow, Ref, RefKind, Route, ScriptRow, Segment, Unit,
    Words, is_host_plan, is_net_plan,
};
use std::alloc::{AllocError, Global};

const COIL_1: Ref = Ref {
    kind: RefKind::Coil,
    number: 1,
};

const ROW: OrderRow = OrderRow {
    segment: 2,
    control: Some(COIL_1),
    input: Some(3),
    output: None,
};

const FAILURE: PowerRow = PowerRow {
    scan: 2000,
    row: 1,
    dark: 3,
};

const MODULE: Module = Module {
    kind: ModuleKind::InWords,
    first: 17,
    count: 16,
};

const BRIDGE: BridgePlan = BridgePlan {
    left_net: 1,
    left: 9,
    right_net: 2,
    right: 12,
};

/// A route over one bridge.
const ROUTE: [u8; 2] = [5, 9];

fn only<T: Drop>(alloc: Global, item: T) -> Result<List<T>, AllocError> {
    let mut list = List::new(alloc);
    list.push(item)?;
    Ok(list)
}

fn pdu(alloc: Global) -> Result<Pdu, AllocError> {
    match Pdu::of(alloc, &[3, 0, 0, 0, 2])? {
        Some(pdu) => Ok(pdu),
        None => Err(AllocError),
    }
}

fn script_row(alloc: Global) -> Result<ScriptRow, AllocError> {
    Ok(ScriptRow::Row(Words::of(alloc, &[7, 65_535])?))
}

fn script(alloc: Global) -> Result<List<ScriptRow>, AllocError> {
    let mut script = only(alloc, ScriptRow::Silent)?;
    script.push(script_row(alloc)?)?;
    Ok(script)
}

fn drop_of(alloc: Global) -> Result<IoDrop, AllocError> {
    let modules = only(alloc, MODULE)?;
    let script = script(alloc)?;
    Ok(IoDrop {
        number: 32,
        modules,
        script,
    })
}

fn rows(alloc: Global) -> Result<(List<Ref>, List<OrderRow>), AllocError> {
    let panel = only(alloc, COIL_1)?;
    let orders = only(alloc, ROW)?;
    Ok((panel, orders))
}

fn drops(alloc: Global) -> Result<List<IoDrop>, AllocError> {
    only(alloc, drop_of(alloc)?)
}

fn segment(alloc: Global) -> Result<Segment, AllocError> {
    let network = Network {
        cells: List::new(alloc),
        shorts: List::new(alloc),
    };
    let networks = only(alloc, network)?;
    Ok(Segment { networks })
}

fn segments(alloc: Global) -> Result<List<Segment>, AllocError> {
    only(alloc, segment(alloc)?)
}

fn field_and_ladder(alloc: Global) -> Result<(List<IoDrop>, List<Segment>), AllocError> {
    let drops = drops(alloc)?;
    let segments = segments(alloc)?;
    Ok((drops, segments))
}

fn controller(alloc: Global) -> Result<ControllerPlan, AllocError> {
    let (panel, orders) = rows(alloc)?;
    let (drops, segments) = field_and_ladder(alloc)?;
    let power = only(alloc, FAILURE)?;
    Ok(ControllerPlan {
        node: 64,
        network: 3,
        coils: 16,
        inputs: 32,
        input_registers: 3,
        registers: 4,
        panel,
        orders,
        power,
        drops,
        segments,
    })
}

fn nodes(alloc: Global) -> Result<(List<u8>, List<u8>), AllocError> {
    let members = only(alloc, 64)?;
    let bridges = only(alloc, 64)?;
    Ok((members, bridges))
}

fn net(alloc: Global) -> Result<NetPlan, AllocError> {
    let fates = only(alloc, Fate::A)?;
    let (members, bridges) = nodes(alloc)?;
    Ok(NetPlan {
        number: 3,
        members,
        bridges,
        fates,
        answer: 20,
        rotations: 4,
        rounds: 2,
        holds: 100_000,
    })
}

fn ask(alloc: Global) -> Result<HostAsk, AllocError> {
    let pdu = pdu(alloc)?;
    Ok(HostAsk {
        hold: 10_000,
        route: Route::of(&ROUTE),
        pdu,
    })
}

fn asks(alloc: Global) -> Result<List<HostAsk>, AllocError> {
    only(alloc, ask(alloc)?)
}

fn host(alloc: Global) -> Result<HostPlan, AllocError> {
    let requests = asks(alloc)?;
    Ok(HostPlan {
        node: 7,
        network: 3,
        requests,
    })
}

fn hosts(alloc: Global) -> Result<List<HostPlan>, AllocError> {
    only(alloc, host(alloc)?)
}

fn controllers(alloc: Global) -> Result<List<ControllerPlan>, AllocError> {
    only(alloc, controller(alloc)?)
}

fn stations(alloc: Global) -> Result<(List<ControllerPlan>, List<HostPlan>), AllocError> {
    let hosts = hosts(alloc)?;
    let controllers = controllers(alloc)?;
    Ok((controllers, hosts))
}

fn plant(alloc: Global) -> Result<Plant, AllocError> {
    let nets = only(alloc, net(alloc)?)?;
    let bridges = only(alloc, BRIDGE)?;
    let (controllers, hosts) = stations(alloc)?;
    Ok(Plant {
        scan_time: 10,
        watchdog: 500,
        nets,
        controllers,
        hosts,
        bridges,
    })
}

fn copy_of<T: Copied + Drop>(alloc: Global, value: T) -> Result<T, AllocError> {
    value.copied(alloc)
}

/// A value equals its copy.
fn is_copied<T: Copied + PartialEq + Drop>(alloc: Global, value: T) -> Result<bool, AllocError> {
    let copy = value.copied(alloc)?;
    Ok(copy == value)
}

#[test]
fn copies_of_numbers_and_references(rt: HostRuntime) -> Result<(), AllocError> {
    let alloc = rt.alloc();
    let same = [
        is_copied(alloc, true)?,
        is_copied(alloc, 255u8)?,
        is_copied(alloc, 65_535u16)?,
        is_copied(alloc, RefKind::Register)?,
        is_copied(alloc, COIL_1)?,
    ];
    assert_eq!(rt; same, [true; 5]);
    Ok(())
}

#[test]
fn copies_of_elements(rt: HostRuntime) -> Result<(), AllocError> {
    let alloc = rt.alloc();
    let same = [
        is_copied(alloc, Operand::At(COIL_1))?,
        is_copied(alloc, Unit::Tenth)?,
        is_copied(alloc, MathOp::Div)?,
        is_copied(alloc, MoveOp::Search)?,
        is_copied(alloc, MatrixOp::Brot)?,
        is_copied(alloc, Element::Label(7))?,
    ];
    assert_eq!(rt; same, [true; 6]);
    Ok(())
}

#[test]
fn copies_of_parts_and_faults(rt: HostRuntime) -> Result<(), AllocError> {
    let alloc = rt.alloc();
    let same = [
        is_copied(alloc, ROW)?,
        is_copied(alloc, FAILURE)?,
        is_copied(alloc, ModuleKind::Out)?,
        is_copied(alloc, MODULE)?,
        is_copied(alloc, Fate::L)?,
        is_copied(alloc, NodePower::OFF)?,
        is_copied(alloc, PlantFault::BadDrop)?,
        is_copied(alloc, Part::HostRequest)?,
        is_copied(alloc, Place::PLANT)?,
        is_copied(alloc, BRIDGE)?,
        is_copied(alloc, Route::of(&ROUTE))?,
    ];
    assert_eq!(rt; same, [true; 11]);
    Ok(())
}

#[test]
fn copies_of_words(rt: HostRuntime) -> Result<(), AllocError> {
    let copy = copy_of(rt.alloc(), Words::of(rt.alloc(), &[1, 2])?)?;
    assert!(rt; copy.words() == [1, 2].as_slice());
    Ok(())
}

#[test]
fn copies_of_requests(rt: HostRuntime) -> Result<(), AllocError> {
    let copy = copy_of(rt.alloc(), pdu(rt.alloc())?)?;
    assert!(rt; copy.bytes() == [3, 0, 0, 0, 2].as_slice());
    Ok(())
}

#[test]
fn copies_of_blocks(rt: HostRuntime) -> Result<(), AllocError> {
    let copy = copy_of(rt.alloc(), Block::of(&[9, 8]))?;
    assert!(rt; copy.words() == [9, 8].as_slice());
    Ok(())
}

fn has_row(row: &ScriptRow, held: &[u16]) -> bool {
    match row {
        ScriptRow::Row(words) => words.words() == held,
        ScriptRow::Silent => held.is_empty(),
    }
}

#[test]
fn a_script_row_and_its_copy(rt: HostRuntime) -> Result<(), AllocError> {
    let alloc = rt.alloc();
    let row = copy_of(alloc, script_row(alloc)?)?;
    assert!(rt; has_row(&row, &[7, 65_535]));
    let silent = copy_of(alloc, ScriptRow::Silent)?;
    assert!(rt; has_row(&silent, &[]));
    Ok(())
}

#[test]
fn a_drop_and_its_copy(rt: HostRuntime) -> Result<(), AllocError> {
    let copy = copy_of(rt.alloc(), drop_of(rt.alloc())?)?;
    assert!(rt;
        copy.number == 32
            && copy.modules.as_slice() == [MODULE].as_slice()
            && copy.script.as_slice().len() == 2
    );
    Ok(())
}

fn is_the_controller(plan: &ControllerPlan) -> bool {
    plan.node == 64
        && plan.network == 3
        && [
            plan.coils,
            plan.inputs,
            plan.input_registers,
            plan.registers,
        ] == [16, 32, 3, 4]
        && plan.panel.as_slice() == [COIL_1].as_slice()
        && plan.orders.as_slice() == [ROW].as_slice()
        && plan.power.as_slice() == [FAILURE].as_slice()
        && plan.segments.as_slice().len() == 1
        && plan.drops.as_slice().len() == 1
}

#[test]
fn a_controller_and_its_copy(rt: HostRuntime) -> Result<(), AllocError> {
    let copy = copy_of(rt.alloc(), controller(rt.alloc())?)?;
    assert!(rt; is_the_controller(&copy));
    Ok(())
}

fn is_the_net(net: &NetPlan) -> bool {
    net.number == 3
        && net.members.as_slice() == [64].as_slice()
        && net.bridges.as_slice() == [64].as_slice()
        && net.fates.as_slice() == [Fate::A].as_slice()
        && [net.answer, net.rotations, net.rounds, net.holds] == [20, 4, 2, 100_000]
}

#[test]
fn a_net_and_its_copy(rt: HostRuntime) -> Result<(), AllocError> {
    let copy = copy_of(rt.alloc(), net(rt.alloc())?)?;
    assert!(rt; is_the_net(&copy));
    Ok(())
}

fn is_the_ask(ask: &HostAsk) -> bool {
    ask.hold == 10_000
        && ask.route.addresses() == ROUTE.as_slice()
        && ask.pdu.bytes() == [3, 0, 0, 0, 2].as_slice()
}

#[test]
fn a_host_and_its_copy(rt: HostRuntime) -> Result<(), AllocError> {
    let copy = copy_of(rt.alloc(), host(rt.alloc())?)?;
    assert!(rt;
        copy.node == 7 && copy.network == 3 && copy.requests.as_slice().iter().all(is_the_ask)
    );
    Ok(())
}

#[test]
fn a_plant_and_its_copy(rt: HostRuntime) -> Result<(), AllocError> {
    let copy = copy_of(rt.alloc(), plant(rt.alloc())?)?;
    assert!(rt;
        [copy.scan_time, copy.watchdog] == [10, 500]
            && copy.nets.as_slice().len() == 1
            && copy.nets.as_slice().iter().all(is_the_net)
            && copy.controllers.as_slice().iter().all(is_the_controller)
            && copy.hosts.as_slice().len() == 1
            && copy.bridges.as_slice() == [BRIDGE].as_slice()
    );
    Ok(())
}

#[test]
fn networks_are_tested(rt: HostRuntime) -> Result<(), AllocError> {
    let mut net = net(rt.alloc())?;
    assert!(rt; is_net_plan(&net));
    net.answer = 1;
    assert!(rt; !is_net_plan(&net));
    net.answer = 2;
    net.number = 9;
    assert!(rt; !is_net_plan(&net));
    Ok(())
}

#[test]
fn hosts_are_tested(rt: HostRuntime) -> Result<(), AllocError> {
    let mut host = host(rt.alloc())?;
    assert!(rt; is_host_plan(&host));
    host.node = 5;
    assert!(rt; !is_host_plan(&host));
    host.node = 7;
    host.network = 0;
    assert!(rt; !is_host_plan(&host));
    Ok(())
}
