//! The input exchanges of a drop.
ghost use Rattle.std.specs.Prelude.{◌≡◌};
ghost use Rattle.std.specs.List.{count_by};
ghost use Rattle.scan_order.specs.Due.{input_of, row_of};
ghost use Rattle.word_exchange.specs.Rows.{inputs_a_scan};
ghost use Rattle.word_exchange.specs.Words.{is_input_of, names_drop};

use controller_core::Entry;
use plant_types::ControllerPlan;

/// Whether a drop is the one that is named.
pub(crate) fn names_drop(drop: u8, named: Option<u8>) -> bool
    ensures { result ≡ names_drop drop named }
{
    match named {
        Some(number) => number == drop,
        None => false,
    }
}

/// The drop that a row of the order of solve names as input.
fn input_of(plan: &ControllerPlan, row: u16) -> Option<u8>
    ensures { result ≡ input_of (row_of plan.now row) }
{
    match plan
        .orders
        .as_slice()
        .get(usize::from(row).saturating_sub(1))
    {
        Some(order) => order.input,
        None => None,
    }
}

/// Whether an entry is an Input of a drop.
fn is_input_of(plan: &ControllerPlan, drop: u8, entry: &Entry) -> bool
    ensures { result ≡ is_input_of plan.now drop entry.now }
{
    match entry {
        Entry::Input(row) => names_drop(drop, input_of(plan, *row)),
        _ => false,
    }
}

/// How many input exchanges of a drop are among entries of the history of its controller. This
/// project's own.
pub fn exchanges_among(plan: &ControllerPlan, drop: u8, entries: &[Entry]) -> usize
    ensures { result ≡ count_by (is_input_of plan.now drop) entries.now }
{
    entries
        .iter()
        .filter(|entry| is_input_of(plan, drop, entry))
        .count()
}

/// How many input exchanges a drop has in a full scan. This project's own.
pub fn inputs_a_scan(plan: &ControllerPlan, drop: u8) -> usize
    ensures { result ≡ inputs_a_scan plan.now drop }
{
    plan.orders
        .as_slice()
        .iter()
        .filter(|order| names_drop(drop, order.input))
        .count()
}
