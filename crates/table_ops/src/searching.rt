//! SRCH.
ghost use Rattle.std.specs.Prelude.{◌≡◌, ◌<◌, IfSome};
ghost use Rattle.plant_types.specs.declared.element.Element.{Element};
ghost use Rattle.plant_types.specs.declared.element.MoveOp.{MoveOp};
ghost use Rattle.plant_types.specs.Effect.{Acts};
ghost use Rattle.plant_types.specs.Operands.{HasOperands};
ghost use Rattle.plant_types.specs.Store.{HasRegisters, words_from};
ghost use Rattle.table_ops.specs.Tables.{first_place, search_effect};

use plant_types::{NodePower, Ref, RefStore, ref_after};

/// The first place of a table, from one on, that holds a number.
fn place_of<R: RefStore>(value: u16, table: Ref, start: u16, length: u16, ram: &R) -> Option<u16>
    requires { HasRegisters (R.contents ram.now) table length }
    ensures found { result ≡
        first_place start value (words_from (R.contents ram.now) table length) }
    ensures within { IfSome result (λ place. place < length) }
{
    for place in start..length {
        if ram.word(ref_after(table, place)) == value {
            return Some(place);
        }
    }
    None
}

/// SRCH: looks in the table of `length` registers from `top` on for the number behind the pointer
/// `mid`.
///
/// The pointer is left one behind the first place that holds it, or at 0.
/// Inputs: the top node searches, the middle one begins at the pointer and not at 0.
/// Outputs: the top node passes power on, the middle one says that the number was found.
pub fn search<R: RefStore>(top: Ref, mid: Ref, length: u16, inputs: u8, ram: &mut R) -> u8
    requires { HasOperands (R.contents ram.old) (Element.Move MoveOp.Search top mid length) }
    ensures { Acts (search_effect top mid length) inputs result
        (R.contents ram.old) (R.contents ram.new) }
{
    let nodes = NodePower::of_bits(inputs);
    if !nodes.top {
        return NodePower::OFF.bits();
    }
    let value = ram.word(ref_after(mid, 1));
    let start = if nodes.middle { ram.word(mid) } else { 0 };
    let found = place_of(value, top, start, length, ram);
    let pointer = match found {
        Some(place) => place + 1,
        None => 0,
    };
    ram.set_word(mid, pointer);
    let outputs = NodePower {
        top: true,
        middle: found.is_some(),
        bottom: false,
    };
    outputs.bits()
}
