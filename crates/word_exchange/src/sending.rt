//! What the from drops of wires send.
ghost use Rattle.std.specs.Prelude.{◌≡◌, IfOk, OnErr, OnOk};
ghost use Rattle.std.specs.List.{list_any};
ghost use Rattle.std.specs.Option.{unwrap_or};
ghost use Rattle.scan_order.specs.Due.{output_of, row_of};
ghost use Rattle.word_exchange.specs.Words.{is_pass_of, last_output, output_to};
ghost use Rattle.word_exchange.specs.Refresh.{Refreshed};

use crate::exchanges::names_drop;
use controller_core::Entry;
use peer_cop::Wire;
use plant_types::{ControllerPlan, Copied, Words};
use ring_core::RingEntry;
use std::alloc::{AllocError, Global};

/// A wire, the words of the latest Output for its from drop, and those that the drop sends: it
/// sends the words of its last Output before its node's last Pass. This project's own.
pub struct Sending {
    pub wire: Wire,
    pub latest: Words,
    pub sent: Words,
}

impl Drop for Sending {
    fn drop(self) {
        let Sending {
            wire: _,
            latest: _,
            sent: _,
        } = self;
    }
}

/// The drop that a row of the order of solve names as output.
fn output_of(plan: &ControllerPlan, row: u16) -> Option<u8>
    ensures { result ≡ output_of (row_of plan.now row) }
{
    match plan
        .orders
        .as_slice()
        .get(usize::from(row).saturating_sub(1))
    {
        Some(order) => order.output,
        None => None,
    }
}

/// The words of an entry that is an Output of a drop, or those before it.
fn output_or<'a>(plan: &ControllerPlan, drop: u8, entry: &'a Entry, before: &'a [u16]) -> &'a [u16]
    ensures { result.now ≡ unwrap_or (output_to plan.now drop entry.now) before.now }
{
    match entry {
        Entry::Output { row, words } => {
            if names_drop(drop, output_of(plan, *row)) {
                words.words()
            } else {
                before
            }
        }
        _ => before,
    }
}

/// The words of the last Output of a drop among entries, or those before it.
fn latest_of(
    alloc: Global,
    plan: &ControllerPlan,
    drop: u8,
    entries: &[Entry],
    before: &Words,
) -> Result<Words, AllocError>
    ensures { IfOk result
        (λ latest. latest ≡ unwrap_or (last_output plan.now drop entries.now) before.now) }
{
    let mut latest = before.words();
    for entry in entries {
        latest = output_or(plan, drop, entry, latest);
    }
    Words::of(alloc, latest)
}

/// Whether an entry of a ring is a Pass of a node.
fn is_pass_of(node: u8, entry: &RingEntry) -> bool
    ensures { result ≡ is_pass_of node entry.now }
{
    match entry {
        RingEntry::Pass {
            node: maker,
            done: _,
            words: _,
        } => *maker == node,
        _ => false,
    }
}

/// Whether a node passes the token among entries of its ring.
fn has_passed(node: u8, ring: &[RingEntry]) -> bool
    ensures { result ≡ list_any (is_pass_of node) ring.now }
{
    ring.iter().any(|entry| is_pass_of(node, entry))
}

impl Sending {
    /// Goes on by what a repetition added to the history of the from drop's controller, whose plan
    /// this is, and to its ring. The only error is that memory ran out; nothing changed then. This
    /// project's own.
    pub fn refresh(
        &mut self,
        alloc: Global,
        plan: &ControllerPlan,
        entries: &[Entry],
        ring: &[RingEntry],
    ) -> Result<(), AllocError>
        ensures ok { OnOk result (Refreshed plan.now entries.now ring.now self.old self.new) }
        ensures err { OnErr result (self.new ≡ self.old) }
    {
        let latest = latest_of(alloc, plan, self.wire.from_drop, entries, &self.latest)?;
        if has_passed(plan.node, ring) {
            self.sent = latest.copied(alloc)?;
        }
        self.latest = latest;
        Ok(())
    }
}
