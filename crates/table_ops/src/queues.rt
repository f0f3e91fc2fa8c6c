//! FIN and FOUT: a queue is a table whose pointer counts the words in it, the newest in the first
//! place.
ghost use Rattle.std.specs.Prelude.{◌≡◌};
ghost use Rattle.plant_types.specs.declared.element.Element.{Element};
ghost use Rattle.plant_types.specs.declared.element.MoveOp.{MoveOp};
ghost use Rattle.plant_types.specs.Effect.{Acts};
ghost use Rattle.plant_types.specs.Operands.{HasOperands};
ghost use Rattle.plant_types.specs.Power.{bits_of};
ghost use Rattle.table_ops.specs.Tables.{queue_outputs, first_in_effect, first_out_effect};

use crate::moves::{move_word, move_words};
use plant_types::{NodePower, Ref, RefStore, ref_after};

/// The output bits of a queue that has so many words.
fn queue_bits(nodes: NodePower, length: u16, count: u16) -> u8
    ensures { result ≡ bits_of (queue_outputs nodes length count) }
{
    let outputs = NodePower {
        top: nodes.top,
        middle: count >= length,
        bottom: count == 0,
    };
    outputs.bits()
}

/// FIN: puts the register `top` first in the queue of at most `length` registers behind the pointer
/// `mid`.
///
/// Input: the top node puts it in, where the queue is not full.
/// Outputs: the top node passes power on, the middle one says that the queue is full, the bottom
/// one that it is empty.
pub fn first_in<R: RefStore>(top: Ref, mid: Ref, length: u16, inputs: u8, ram: &mut R) -> u8
    requires { HasOperands (R.contents ram.old) (Element.Move MoveOp.FirstIn top mid length) }
    ensures { Acts (first_in_effect top mid length) inputs result
        (R.contents ram.old) (R.contents ram.new) }
{
    let nodes = NodePower::of_bits(inputs);
    let count = ram.word(mid);
    if !nodes.top || count >= length {
        return queue_bits(nodes, length, count);
    }
    let word = ram.word(top);
    let queue = ref_after(mid, 1);
    move_words(ram, queue, ref_after(queue, 1), count);
    ram.set_word(queue, word);
    ram.set_word(mid, count + 1);
    queue_bits(nodes, length, count + 1)
}

/// FOUT: takes the last word out of the queue of at most `length` registers behind the pointer
/// `top`, into `mid`.
///
/// Input: the top node takes it, where the pointer is 1 to `length`. Outputs are those of
/// `first_in`.
pub fn first_out<R: RefStore>(top: Ref, mid: Ref, length: u16, inputs: u8, ram: &mut R) -> u8
    requires { HasOperands (R.contents ram.old) (Element.Move MoveOp.FirstOut top mid length) }
    ensures { Acts (first_out_effect top mid length) inputs result
        (R.contents ram.old) (R.contents ram.new) }
{
    let nodes = NodePower::of_bits(inputs);
    let count = ram.word(top);
    if !nodes.top || count == 0 || count > length {
        return queue_bits(nodes, length, count);
    }
    move_word(ram, ref_after(top, count), mid);
    ram.set_word(top, count - 1);
    queue_bits(nodes, length, count - 1)
}
