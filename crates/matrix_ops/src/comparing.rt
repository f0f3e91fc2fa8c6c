//! CMPR.
ghost use Rattle.std.specs.Prelude.{◌≡◌, ◌≤◌, ◌+◌, ◌*◌, length, IfSome};
ghost use Rattle.plant_types.specs.declared.element.Element.{Element};
ghost use Rattle.plant_types.specs.declared.element.MatrixOp.{MatrixOp};
ghost use Rattle.plant_types.specs.declared.element.Operand.{Operand};
ghost use Rattle.plant_types.specs.Effect.{Acts};
ghost use Rattle.plant_types.specs.Operands.{HasOperands};
ghost use Rattle.plant_types.specs.Slots.{matrix_limit};
ghost use Rattle.plant_types.specs.Store.{HasRegisters};
ghost use Rattle.matrix_ops.specs.Bits.{matrix_bits};
ghost use Rattle.matrix_ops.specs.Matrices.{first_difference, difference_in, cmpr_effect};

use crate::bits::matrix_bit;
use crate::single_bits::bit;
use plant_types::{MATRIX_LIMIT, NodePower, Ref, RefStore, load_words, ref_after};

/// The number of the first bit behind so many in which two matrices of one length differ.
fn difference_behind(behind: u16, words: &[u16], others: &[u16]) -> Option<u16>
    requires same { length words.now ≡ length others.now }
    requires size { length words.now ≤ matrix_limit }
    ensures found { result ≡
        first_difference behind (matrix_bits words.now) (matrix_bits others.now) }
    ensures counts_from_one { IfSome result (λ k. 1 ≤ k) }
    ensures within { IfSome result (λ k. k ≤ 16 * length words.now) }
{
    for place in behind..16 * words.len() as u16 {
        if matrix_bit(words, place) != matrix_bit(others, place) {
            return Some(place + 1);
        }
    }
    None
}

/// The same of two matrices in registers.
fn register_difference<R: RefStore>(
    behind: u16,
    top: Ref,
    second: Ref,
    length: u16,
    ram: &R,
) -> Option<u16>
    requires size { length ≤ matrix_limit }
    requires first { HasRegisters (R.contents ram.now) top length }
    requires second { HasRegisters (R.contents ram.now) second length }
    ensures found { result ≡ difference_in (R.contents ram.now) behind top second length }
    ensures counts_from_one { IfSome result (λ k. 1 ≤ k) }
    ensures within { IfSome result (λ k. k ≤ 16 * length) }
{
    let mut words = [0; MATRIX_LIMIT as usize];
    let words = &mut words[..usize::from(length)];
    load_words(ram, top, words);
    let mut others = [0; MATRIX_LIMIT as usize];
    let others = &mut others[..usize::from(length)];
    load_words(ram, second, others);
    difference_behind(behind, words, others)
}

/// CMPR: compares the matrix `top` with the matrix behind the pointer `mid`, of `length` registers
/// each.
///
/// The pointer is left at the number of the first bit behind it that differs, or at 0.
/// Inputs: the top node compares, the middle one begins at the first bit.
/// Outputs: the top node passes power on, the middle one says that a bit differs, the bottom one is
/// that bit of `top`.
pub fn cmpr<R: RefStore>(top: Ref, mid: Ref, length: u16, inputs: u8, ram: &mut R) -> u8
    requires { HasOperands (R.contents ram.old)
        (Element.Matrix MatrixOp.Cmpr (Operand.At top) mid length) }
    ensures { Acts (cmpr_effect top mid length) inputs result
        (R.contents ram.old) (R.contents ram.new) }
{
    let nodes = NodePower::of_bits(inputs);
    if !nodes.top {
        return NodePower::OFF.bits();
    }
    let behind = if nodes.middle { 0 } else { ram.word(mid) };
    let found = register_difference(behind, top, ref_after(mid, 1), length, ram);
    let on = match found {
        Some(k) => bit(top, length, k, ram),
        None => false,
    };
    ram.set_word(mid, found.unwrap_or(0));
    let outputs = NodePower {
        top: true,
        middle: found.is_some(),
        bottom: on,
    };
    outputs.bits()
}
