//! MBIT and SENS.
ghost use Rattle.std.specs.Prelude.{◌≡◌, ◌≤◌, true, ◌*◌, ◌&&◌, if◌then◌else◌};
ghost use Rattle.plant_types.specs.Operands.{HasOperands, HasNumber, operand_number};
ghost use Rattle.plant_types.specs.declared.element.Element.{Element};
ghost use Rattle.plant_types.specs.declared.element.MatrixOp.{MatrixOp};
ghost use Rattle.plant_types.specs.Effect.{Acts};
ghost use Rattle.plant_types.specs.Slots.{matrix_limit};
ghost use Rattle.plant_types.specs.Store.{HasRegisters, Keeps, words_from};
ghost use Rattle.matrix_ops.specs.Bits.{matrix_bits, bit_number};
ghost use Rattle.matrix_ops.specs.Matrices.{is_pointer, with_pointer, is_bit_of};
ghost use Rattle.matrix_ops.specs.Matrices.{with_matrix_bit, SetsOneBit, mbit_effect, sens_effect};

use crate::bits::{with_word_bit, word_bit};
use plant_types::{NodePower, Operand, Ref, RefKind, RefStore, ref_after};

/// Whether an operand is a holding register, in which a block can store.
fn is_pointer_operand(operand: Operand) -> bool
    ensures { result ≡ is_pointer operand }
{
    match operand {
        Operand::Const(_) => false,
        Operand::At(at) => at.kind == RefKind::Register,
    }
}

/// Stores a number in an operand that is a pointer.
fn set_pointer<R: RefStore>(operand: Operand, value: u16, ram: &mut R)
    requires { HasNumber (R.contents ram.old) operand }
    ensures stored { R.contents ram.new ≡ with_pointer (R.contents ram.old) operand value }
    ensures keeps { Keeps (R.contents ram.old) (R.contents ram.new) }
{
    if let Operand::At(at) = operand {
        if at.kind == RefKind::Register {
            ram.set_word(at, value);
        }
    }
}

/// Whether a matrix of so many registers has a bit of this number.
fn has_bit(length: u16, k: u16) -> bool
    requires { length ≤ matrix_limit }
    ensures { result ≡ is_bit_of length k }
{
    k >= 1 && k <= 16 * length
}

/// The bit of a number in a matrix.
pub(crate) fn bit<R: RefStore>(matrix: Ref, length: u16, k: u16, ram: &R) -> bool
    requires matrix { HasRegisters (R.contents ram.now) matrix length }
    requires from_one { 1 ≤ k }
    requires within { k ≤ 16 * length }
    ensures { result ≡ bit_number (matrix_bits (words_from (R.contents ram.now) matrix length)) k }
{
    word_bit(ram.word(ref_after(matrix, (k - 1) / 16)), (k - 1) % 16)
}

/// Sets the bit of a number in a matrix on or off.
fn set_bit<R: RefStore>(matrix: Ref, length: u16, k: u16, on: bool, ram: &mut R)
    requires matrix { HasRegisters (R.contents ram.old) matrix length }
    requires from_one { 1 ≤ k }
    requires within { k ≤ 16 * length }
    ensures stored { R.contents ram.new ≡ with_matrix_bit (R.contents ram.old) matrix length k on }
    ensures keeps { Keeps (R.contents ram.old) (R.contents ram.new) }
{
    let at = ref_after(matrix, (k - 1) / 16);
    let word = with_word_bit(ram.word(at), (k - 1) % 16, on);
    ram.set_word(at, word);
}

/// To set one bit of a matrix changes it in the list of all its bits, and no other.
pub fn sets_one_bit()
    ensures { SetsOneBit }
{}

/// MBIT: sets the bit of the matrix `mid` whose number is `top`; bit 1 is the highest of the first
/// register.
///
/// Inputs: the top node sets, the middle one says on or off, the bottom one steps `top` where it is
/// a holding register.
/// Outputs: the top node passes power on, the middle one is the bit, the bottom one says that the
/// matrix has no such bit.
pub fn mbit<R: RefStore>(top: Operand, mid: Ref, length: u16, inputs: u8, ram: &mut R) -> u8
    requires { HasOperands (R.contents ram.old)
        (Element.Matrix MatrixOp.Mbit top mid length) }
    ensures { Acts (mbit_effect top mid length) inputs result
        (R.contents ram.old) (R.contents ram.new) }
{
    let nodes = NodePower::of_bits(inputs);
    if !nodes.top {
        return NodePower::OFF.bits();
    }
    let k = top.number(ram);
    let inside = has_bit(length, k);
    if inside {
        set_bit(mid, length, k, nodes.middle, ram);
        if nodes.bottom {
            set_pointer(top, k + 1, ram);
        }
    }
    let outputs = NodePower {
        top: true,
        middle: inside && nodes.middle,
        bottom: !inside,
    };
    outputs.bits()
}

/// The number of the bit that SENS tells: 1 where the bottom node sets a pointer back.
fn number_to_tell<R: RefStore>(nodes: NodePower, top: Operand, ram: &R) -> u16
    requires { HasNumber (R.contents ram.now) top }
    ensures { result ≡ (if nodes.bottom && is_pointer top then 1
        else operand_number (R.contents ram.now) top) }
{
    if nodes.bottom && is_pointer_operand(top) {
        1
    } else {
        top.number(ram)
    }
}

/// SENS: tells the bit of the matrix `mid` whose number is `top`; bit 1 is the highest of the first
/// register.
///
/// Inputs: the top node asks, the middle one steps `top` where it is a holding register,
/// the bottom one sets such a register to 1 first. Outputs are those of `mbit`.
pub fn sens<R: RefStore>(top: Operand, mid: Ref, length: u16, inputs: u8, ram: &mut R) -> u8
    requires { HasOperands (R.contents ram.old)
        (Element.Matrix MatrixOp.Sens top mid length) }
    ensures { Acts (sens_effect top mid length) inputs result
        (R.contents ram.old) (R.contents ram.new) }
{
    let nodes = NodePower::of_bits(inputs);
    if !nodes.top {
        return NodePower::OFF.bits();
    }
    let k = number_to_tell(nodes, top, ram);
    let inside = has_bit(length, k);
    let on = inside && bit(mid, length, k, ram);
    if inside && nodes.middle {
        set_pointer(top, k + 1, ram);
    } else if nodes.bottom {
        set_pointer(top, 1, ram);
    }
    let outputs = NodePower {
        top: true,
        middle: on,
        bottom: !inside,
    };
    outputs.bits()
}
