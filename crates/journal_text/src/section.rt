//! The sections of a journal that are read.
ghost use Rattle.std.specs.Prelude.{◌≡◌, ◌==◌, None, Some, if◌then◌else◌};
ghost use Rattle.journal_text.specs.declared.section.Head.TheVariants as heads;
ghost use Rattle.journal_reading.specs.Reading.{Reads, read_as, read_small};
ghost use Rattle.journal_text.specs.Drafts.{goes_before, head_of, new_bridge_log, new_host_log};
ghost use Rattle.journal_text.specs.Drafts.{new_log, new_ring_log, new_section, numbered_ring};
ghost use Rattle.journal_text.specs.Drafts.{read_bridge_head, read_head, read_ring_head, with_line};
ghost use Rattle.journal_text.specs.declared.section.Section.TheVariants as sections;

use joint_history::{BridgeLog, ControllerLog, HostLog, RingLog};
use journal_reading::{
    LineFault, behind, cut, is_text, read_bridge_entry, read_entry, read_host_entry,
    read_ring_entry, read_small,
};
use plant_types::List;
use std::alloc::Global;

/// What the first line of a section says.
#[derive(Clone, Copy)]
pub(crate) enum Head {
    Controller(u8),
    Host(u8),
    Bridge { left: u8, right: u8 },
    Ring(u8),
}

/// A section, as far as it is read.
#[derive(Drop)]
pub(crate) enum Section {
    Controller(ControllerLog),
    Host(HostLog),
    Bridge(BridgeLog),
    Ring(RingLog),
}

fn read_controller_head(text: &[u8]) -> Result<Head, LineFault>
    ensures { Reads (λ head. head) result
        (read_as (λ node. heads.Controller node) read_small text.now) }
{
    let node = read_small(text)?;
    Ok(Head::Controller(node))
}

fn read_host_head(text: &[u8]) -> Result<Head, LineFault>
    ensures { Reads (λ head. head) result (read_as (λ node. heads.Host node) read_small text.now) }
{
    let node = read_small(text)?;
    Ok(Head::Host(node))
}

fn read_bridge_head(text: &[u8]) -> Result<Head, LineFault>
    ensures { Reads (λ head. head) result (read_bridge_head text.now) }
{
    let (left, right) = cut(text, b' ')?;
    let left = read_small(left)?;
    let right = read_small(right)?;
    Ok(Head::Bridge { left, right })
}

/// Network 0 has no number in its line.
fn numbered_ring(network: u8) -> Result<Head, LineFault>
    ensures { Reads (λ head. head) result (numbered_ring network) }
{
    if network == 0 {
        Err(LineFault::Wrong)
    } else {
        Ok(Head::Ring(network))
    }
}

fn read_ring_head(text: &[u8]) -> Result<Head, LineFault>
    ensures { Reads (λ head. head) result (read_ring_head text.now) }
{
    let network = read_small(text)?;
    numbered_ring(network)
}

/// The section that a line begins.
#[tactic(auto, unfolding(crate::specs::Drafts::read_head))]
pub(crate) fn read_head(line: &[u8]) -> Result<Head, LineFault>
    ensures { Reads (λ head. head) result (read_head line.now) }
{
    if let Some(node) = behind(line, "C ") {
        return read_controller_head(node);
    }
    if let Some(node) = behind(line, "H ") {
        return read_host_head(node);
    }
    if let Some(ends) = behind(line, "W ") {
        return read_bridge_head(ends);
    }
    if let Some(network) = behind(line, "R ") {
        return read_ring_head(network);
    }
    if is_text(line, "R") {
        Ok(Head::Ring(0))
    } else {
        Err(LineFault::Wrong)
    }
}

/// Controllers stand first, then hosts, then bridges, then rings, and those of a kind rise.
#[tactic(auto, unfolding(crate::specs::Drafts::goes_before))]
pub(crate) fn goes_before(head: Head, next: Head) -> bool
    ensures { result ≡ goes_before head next }
{
    match (head, next) {
        (Head::Controller(node), Head::Controller(next)) => node < next,
        (Head::Controller(_), _) => true,
        (Head::Host(_), Head::Controller(_)) => false,
        (Head::Host(node), Head::Host(next)) => node < next,
        (Head::Host(_), _) => true,
        (Head::Bridge { left, .. }, Head::Bridge { left: next, .. }) => left < next,
        (Head::Bridge { .. }, Head::Ring(_)) => true,
        (Head::Bridge { .. }, _) => false,
        (Head::Ring(network), Head::Ring(next)) => network < next,
        (Head::Ring(_), _) => false,
    }
}

fn new_log(alloc: Global, node: u8) -> ControllerLog
    ensures { result ≡ new_log node }
{
    ControllerLog {
        node,
        entries: List::new(alloc),
    }
}

fn new_host_log(alloc: Global, node: u8) -> HostLog
    ensures { result ≡ new_host_log node }
{
    HostLog {
        node,
        entries: List::new(alloc),
    }
}

fn new_bridge_log(alloc: Global, left: u8, right: u8) -> BridgeLog
    ensures { result ≡ new_bridge_log left right }
{
    BridgeLog {
        left,
        right,
        entries: List::new(alloc),
    }
}

fn new_ring_log(alloc: Global, network: u8) -> RingLog
    ensures { result ≡ new_ring_log network }
{
    RingLog {
        network,
        entries: List::new(alloc),
    }
}

fn with_controller_line(
    alloc: Global,
    log: ControllerLog,
    line: &[u8],
) -> Result<Section, LineFault>
    ensures { Reads (λ section. section) result (with_line (sections.Controller log) line.now) }
{
    let mut log = log;
    let entry = read_entry(alloc, line)?;
    log.entries.push(entry)?;
    Ok(Section::Controller(log))
}

fn with_host_line(alloc: Global, log: HostLog, line: &[u8]) -> Result<Section, LineFault>
    ensures { Reads (λ section. section) result (with_line (sections.Host log) line.now) }
{
    let mut log = log;
    let entry = read_host_entry(alloc, line)?;
    log.entries.push(entry)?;
    Ok(Section::Host(log))
}

fn with_bridge_line(alloc: Global, log: BridgeLog, line: &[u8]) -> Result<Section, LineFault>
    ensures { Reads (λ section. section) result (with_line (sections.Bridge log) line.now) }
{
    let mut log = log;
    let entry = read_bridge_entry(alloc, line)?;
    log.entries.push(entry)?;
    Ok(Section::Bridge(log))
}

fn with_ring_line(alloc: Global, log: RingLog, line: &[u8]) -> Result<Section, LineFault>
    ensures { Reads (λ section. section) result (with_line (sections.Ring log) line.now) }
{
    let mut log = log;
    let entry = read_ring_entry(alloc, line)?;
    log.entries.push(entry)?;
    Ok(Section::Ring(log))
}

impl Section {
    /// The section that a head begins.
    pub(crate) fn new(alloc: Global, head: Head) -> Section
        ensures { result ≡ new_section head }
    {
        match head {
            Head::Controller(node) => Section::Controller(new_log(alloc, node)),
            Head::Host(node) => Section::Host(new_host_log(alloc, node)),
            Head::Bridge { left, right } => Section::Bridge(new_bridge_log(alloc, left, right)),
            Head::Ring(network) => Section::Ring(new_ring_log(alloc, network)),
        }
    }

    pub(crate) fn head(&self) -> Head
        ensures { result ≡ head_of self.now }
    {
        match self {
            Section::Controller(log) => Head::Controller(log.node),
            Section::Host(log) => Head::Host(log.node),
            Section::Bridge(log) => Head::Bridge {
                left: log.left,
                right: log.right,
            },
            Section::Ring(log) => Head::Ring(log.network),
        }
    }

    /// The section with what a line tells. Where the line is refused, it is dropped.
    pub(crate) fn with_line(self, alloc: Global, line: &[u8]) -> Result<Section, LineFault>
        ensures { Reads (λ section. section) result (with_line self line.now) }
    {
        match self {
            Section::Controller(log) => with_controller_line(alloc, log, line),
            Section::Host(log) => with_host_line(alloc, log, line),
            Section::Bridge(log) => with_bridge_line(alloc, log, line),
            Section::Ring(log) => with_ring_line(alloc, log, line),
        }
    }
}
