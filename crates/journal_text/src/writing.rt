//! The journal as a whole, and its sections.
ghost use Rattle.std.specs.Prelude.{codes, ◌≡◌, ◌++◌, IfOk, OnOk, string_bytes};
ghost use Rattle.std.specs.Fmt.{decimal};
ghost use Rattle.std.specs.List.{flat_map};
ghost use Rattle.journal_text.specs.Journal.{IsPlain, bridge_section, controller_section};
ghost use Rattle.journal_text.specs.Journal.{host_section, journal, ring_head, ring_section};

use joint_history::{BridgeLog, ControllerLog, HostLog, Joint, RingLog};
use journal_lines::{push_bridge_lines, push_controller_lines, push_host_lines, push_ring_lines};
use std::alloc::{AllocError, Global};
use std::fmt::Write;

fn push_controller(text: &mut String, log: &ControllerLog) -> Result<(), AllocError>
    ensures { OnOk result (string_bytes text.new ≡ string_bytes text.old
        ++ controller_section log.now) }
{
    let node = log.node;
    write!(text, "C {node}\n")?;
    push_controller_lines(text, log.entries.as_slice())
}

fn push_controllers(text: &mut String, logs: &[ControllerLog]) -> Result<(), AllocError>
    ensures { OnOk result (string_bytes text.new ≡ string_bytes text.old
        ++ flat_map controller_section logs.now) }
{
    for log in logs.iter() {
        push_controller(text, log)?;
    }
    Ok(())
}

fn push_host(text: &mut String, log: &HostLog) -> Result<(), AllocError>
    ensures { OnOk result (string_bytes text.new ≡ string_bytes text.old ++ host_section log.now) }
{
    let node = log.node;
    write!(text, "H {node}\n")?;
    push_host_lines(text, log.entries.as_slice())
}

fn push_hosts(text: &mut String, logs: &[HostLog]) -> Result<(), AllocError>
    ensures { OnOk result (string_bytes text.new ≡ string_bytes text.old
        ++ flat_map host_section logs.now) }
{
    for log in logs.iter() {
        push_host(text, log)?;
    }
    Ok(())
}

fn push_bridge(text: &mut String, log: &BridgeLog) -> Result<(), AllocError>
    ensures { OnOk result (string_bytes text.new ≡ string_bytes text.old
        ++ bridge_section log.now) }
{
    let left = log.left;
    let right = log.right;
    write!(text, "W {left} {right}\n")?;
    push_bridge_lines(text, log.entries.as_slice())
}

fn push_bridges(text: &mut String, logs: &[BridgeLog]) -> Result<(), AllocError>
    ensures { OnOk result (string_bytes text.new ≡ string_bytes text.old
        ++ flat_map bridge_section logs.now) }
{
    for log in logs.iter() {
        push_bridge(text, log)?;
    }
    Ok(())
}

/// Network 0 has no number there.
fn push_ring_head(text: &mut String, network: u8) -> Result<(), AllocError>
    ensures { OnOk result (string_bytes text.new ≡ string_bytes text.old ++ ring_head network) }
{
    if network == 0 {
        text.push_str("R")
    } else {
        write!(text, "R {network}")
    }
}

fn push_ring(text: &mut String, log: &RingLog) -> Result<(), AllocError>
    ensures { OnOk result (string_bytes text.new ≡ string_bytes text.old ++ ring_section log.now) }
{
    push_ring_head(text, log.network)?;
    text.push_str("\n")?;
    push_ring_lines(text, log.entries.as_slice())
}

fn push_rings(text: &mut String, logs: &[RingLog]) -> Result<(), AllocError>
    ensures { OnOk result (string_bytes text.new ≡ string_bytes text.old
        ++ flat_map ring_section logs.now) }
{
    for log in logs.iter() {
        push_ring(text, log)?;
    }
    Ok(())
}

/// The journal of a joint history, each line with its line feed.
pub fn journal_text(alloc: Global, joint: &Joint) -> Result<Vec<u8>, AllocError>
    requires { IsPlain joint.now }
    ensures { IfOk result (λ text. text.items ≡ journal joint.now) }
{
    let mut text = String::new(alloc);
    text.push_str("%JOURNAL\n")?;
    push_controllers(&mut text, joint.controllers.as_slice())?;
    push_hosts(&mut text, joint.hosts.as_slice())?;
    push_bridges(&mut text, joint.bridges.as_slice())?;
    push_rings(&mut text, joint.rings.as_slice())?;
    text.push_str("%END\n")?;
    Ok(text.into_bytes())
}
