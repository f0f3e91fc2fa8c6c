//! BROT.
ghost use Rattle.std.specs.Prelude.{◌≡◌, ◌<◌, length};
ghost use Rattle.plant_types.specs.declared.element.Element.{Element};
ghost use Rattle.plant_types.specs.declared.element.MatrixOp.{MatrixOp};
ghost use Rattle.plant_types.specs.declared.element.Operand.{Operand};
ghost use Rattle.plant_types.specs.Effect.{Acts};
ghost use Rattle.plant_types.specs.Operands.{HasOperands};
ghost use Rattle.plant_types.specs.Slots.{matrix_limit};
ghost use Rattle.plant_types.specs.Store.{HasRegisters};
ghost use Rattle.matrix_ops.specs.Bits.{matrix_word, matrix_words};
ghost use Rattle.matrix_ops.specs.Matrices.{turned_left, turned_right, brot_effect};

use crate::bits::matrix_bit;
use plant_types::{MATRIX_LIMIT, NodePower, Ref, RefStore, load_words, store_words};

/// The word at a place of the matrix turned to the left.
fn left_word(words: &[u16], place: usize, bit_in: bool) -> u16
    requires { place < length words.now }
    ensures { result ≡ matrix_word (turned_left words.now bit_in) place }
{
    let last = if place + 1 < words.len() {
        words[place + 1] >> 15
    } else {
        u16::from(bit_in)
    };
    words[place] << 1 | last
}

fn turn_left(words: &[u16], bit_in: bool, turned: &mut [u16])
    requires same { length turned.old ≡ length words.now }
    ensures { turned.new ≡ matrix_words (turned_left words.now bit_in) }
{
    for (place, word) in turned.iter_mut().enumerate() {
        *word = left_word(words, place, bit_in);
    }
}

/// The word at a place of the matrix turned to the right.
fn right_word(words: &[u16], place: usize, bit_in: bool) -> u16
    requires { place < length words.now }
    ensures { result ≡ matrix_word (turned_right words.now bit_in) place }
{
    let first = if place > 0 {
        words[place - 1] & 1
    } else {
        u16::from(bit_in)
    };
    first << 15 | words[place] >> 1
}

fn turn_right(words: &[u16], bit_in: bool, turned: &mut [u16])
    requires same { length turned.old ≡ length words.now }
    ensures { turned.new ≡ matrix_words (turned_right words.now bit_in) }
{
    for (place, word) in turned.iter_mut().enumerate() {
        *word = right_word(words, place, bit_in);
    }
}

/// BROT: the matrix `mid` becomes the matrix `top` of `length` registers turned by one bit.
///
/// Inputs: the top node turns, the middle one says to the left and not to the right,
/// the bottom one lets the bit that goes out come in again.
/// Outputs: the top node passes power on, the middle one is the bit that went out.
pub fn brot<R: RefStore>(top: Ref, mid: Ref, length: u16, inputs: u8, ram: &mut R) -> u8
    requires { HasOperands (R.contents ram.old)
        (Element.Matrix MatrixOp.Brot (Operand.At top) mid length) }
    ensures { Acts (brot_effect top mid length) inputs result
        (R.contents ram.old) (R.contents ram.new) }
{
    let nodes = NodePower::of_bits(inputs);
    if !nodes.top {
        return NodePower::OFF.bits();
    }
    let mut words = [0; MATRIX_LIMIT as usize];
    let words = &mut words[..usize::from(length)];
    load_words(ram, top, words);
    let bit_out = matrix_bit(words, if nodes.middle { 0 } else { 16 * length - 1 });
    let bit_in = nodes.bottom && bit_out;
    let mut turned = [0; MATRIX_LIMIT as usize];
    let turned = &mut turned[..usize::from(length)];
    if nodes.middle {
        turn_left(words, bit_in, turned);
    } else {
        turn_right(words, bit_in, turned);
    }
    store_words(ram, mid, turned);
    let outputs = NodePower {
        top: true,
        middle: bit_out,
        bottom: false,
    };
    outputs.bits()
}
