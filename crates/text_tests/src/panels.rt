//! The lines of a host, and those of controllers scan by scan.
use crate::written::{id, pdu};
use controller_core::Notes;
use host_port::{Host, HostResult};
use panel_text::{panels_of, push_host, push_scans};
use plant_types::{
    ControllerPlan, Fate, HostAsk, HostPlan, List, NetPlan, Ref, RefKind, Route, is_host_plan,
};
use std::alloc::{AllocError, Global};
use std::process::Abort;
use std::test::Fail;

/// Host 9 asks node 2 for a register, twice.
fn plan_of(alloc: Global) -> Result<HostPlan, Fail> {
    let mut requests = List::new(alloc);
    for _ in 0..2 {
        let pdu = pdu(alloc, &[3, 0, 0, 0, 1])?;
        requests.push(HostAsk {
            hold: 1,
            route: Route::of(&[2]),
            pdu,
        })?;
    }
    Ok(HostPlan {
        node: 9,
        network: 0,
        requests,
    })
}

fn net_of(alloc: Global) -> NetPlan {
    let fates: List<Fate> = List::new(alloc);
    NetPlan {
        number: 0,
        members: List::new(alloc),
        bridges: List::new(alloc),
        fates,
        answer: 20,
        rotations: 4,
        rounds: 2,
        holds: 100,
    }
}

fn host_of(rt: &impl Abort, alloc: Global) -> Result<Host, Fail> {
    let plan = plan_of(alloc)?;
    let can = is_host_plan(&plan);
    assert!(rt; can);
    Ok(Host::new(alloc, &plan, &net_of(alloc))?)
}

/// Ends the call on a path.
fn end(rt: &impl Abort, host: &mut Host, path: u8, outcome: HostResult) -> Result<(), AllocError> {
    let id = id(9, path, 1);
    let out = host.is_out(id);
    assert!(rt; out);
    host.answer(id, outcome)
}

/// Both are asked; the second comes to its word before the first has its reply.
fn converse(rt: &impl Abort, alloc: Global, host: &mut Host) -> Result<(), Fail> {
    let reply = pdu(alloc, &[3, 2, 0, 0x2a])?;
    host.ask(1)?;
    host.ask(1)?;
    end(rt, host, 2, HostResult::Bad(0x6103))?;
    end(rt, host, 1, HostResult::Reply(reply))?;
    Ok(())
}

#[test]
fn requests_stand_in_the_order_in_which_they_were_made(rt: HostRuntime) -> Result<(), Fail> {
    let alloc = rt.alloc();
    let mut host = host_of(&rt, alloc)?;
    converse(&rt, alloc, &mut host)?;
    let mut text = String::new(alloc);
    push_host(alloc, &mut text, 9, host.history())?;
    assert!(rt; text.as_str() == "H 9 1 0302002a\nH 9 2 ERR 6103\n");
    Ok(())
}

/// The plan of a controller that shows one register.
fn plan_at(alloc: Global, node: u8) -> Result<ControllerPlan, AllocError> {
    let mut panel = List::new(alloc);
    panel.push(Ref {
        kind: RefKind::Register,
        number: 1,
    })?;
    Ok(ControllerPlan {
        node,
        network: 0,
        coils: 0,
        inputs: 0,
        input_registers: 0,
        registers: 16,
        panel,
        orders: List::new(alloc),
        power: List::new(alloc),
        segments: List::new(alloc),
        drops: List::new(alloc),
    })
}

fn notes_of(alloc: Global, values: &[u16], gone: u32, stop: u16) -> Result<Notes, AllocError> {
    let values = List::from_vec(Vec::from_slice(alloc, values)?);
    Ok(Notes { values, gone, stop })
}

#[test]
fn each_scan_has_the_lines_of_all(rt: HostRuntime) -> Result<(), AllocError> {
    let alloc = rt.alloc();
    let mut plans = Vec::new(alloc);
    plans.push(plan_at(alloc, 2)?)?;
    plans.push(plan_at(alloc, 5)?)?;
    let mut notes = Vec::new(alloc);
    notes.push(notes_of(alloc, &[7, 8, 65_535], 3, 0)?)?;
    notes.push(notes_of(alloc, &[1, 2], 1, 1)?)?;
    let panels = panels_of(alloc, plans.as_slice())?;
    let mut text = String::new(alloc);
    push_scans(
        &mut text,
        plans.as_slice(),
        panels.as_slice(),
        notes.as_slice(),
    )?;
    let wanted = "S 1 N 2 40001=7\nS 1 N 5 40001=1\nS 2 N 2 40001=8\nS 2 N 5 STOP 1\n\
        S 3 N 2 40001=65535\n";
    assert!(rt; text.as_str() == wanted);
    Ok(())
}
