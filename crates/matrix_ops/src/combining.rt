//! AND, OR, XOR and COMP.
ghost use Rattle.std.specs.Prelude.{◌≡◌, ◌≤◌, false, length, map};
ghost use Rattle.std.specs.Int.{bit_not, w16};
ghost use Rattle.plant_types.specs.declared.element.Element.{Element};
ghost use Rattle.plant_types.specs.declared.element.MatrixOp.{MatrixOp};
ghost use Rattle.plant_types.specs.declared.element.Operand.{Operand};
ghost use Rattle.plant_types.specs.Effect.{Acts};
ghost use Rattle.plant_types.specs.Operands.{HasOperands};
ghost use Rattle.plant_types.specs.Power.{bits_of};
ghost use Rattle.plant_types.specs.Slots.{matrix_limit};
ghost use Rattle.plant_types.specs.Store.{HasRegisters, Keeps};
ghost use Rattle.matrix_ops.specs.Matrices.{word_by_word, combined, and_effect, or_effect};
ghost use Rattle.matrix_ops.specs.Matrices.{xor_effect, comp_effect};
ghost use Rattle.matrix_ops.specs.Rule.{rule_of, rule_effect};

use plant_types::{MATRIX_LIMIT, NodePower, Ref, RefStore, load_words, store_words};

/// How two words become one, bit by bit.
#[derive(Clone, Copy)]
enum Rule {
    Both,
    Either,
    OneAlone,
}

impl Rule {
    fn of(self, word: u16, other: u16) -> u16
        ensures { result ≡ rule_of self word other }
    {
        match self {
            Rule::Both => word & other,
            Rule::Either => word | other,
            Rule::OneAlone => word ^ other,
        }
    }
}

fn combine_words(rule: Rule, words: &mut [u16], others: &[u16])
    requires { length words.old ≡ length others.now }
    ensures { words.new ≡ word_by_word (rule_of rule) words.old others.now }
{
    for (i, word) in words.iter_mut().enumerate() {
        *word = rule.of(*word, others[i]);
    }
}

fn combine_registers<R: RefStore>(rule: Rule, top: Ref, mid: Ref, length: u16, ram: &mut R)
    requires length { length ≤ matrix_limit }
    requires source { HasRegisters (R.contents ram.old) top length }
    requires matrix { HasRegisters (R.contents ram.old) mid length }
    ensures stored { R.contents ram.new ≡
        combined (rule_of rule) top mid length (R.contents ram.old) }
    ensures keeps { Keeps (R.contents ram.old) (R.contents ram.new) }
{
    let mut words = [0; MATRIX_LIMIT as usize];
    let words = &mut words[..usize::from(length)];
    load_words(ram, mid, words);
    let mut others = [0; MATRIX_LIMIT as usize];
    let others = &mut others[..usize::from(length)];
    load_words(ram, top, others);
    combine_words(rule, words, others);
    store_words(ram, mid, words);
}

/// The output bits of a block that passes power on, and does nothing else.
fn passed_on(power: bool) -> u8
    ensures { result ≡ bits_of (record { top = power; middle = false; bottom = false }) }
{
    let outputs = NodePower {
        top: power,
        middle: false,
        bottom: false,
    };
    outputs.bits()
}

fn combine<R: RefStore>(rule: Rule, top: Ref, mid: Ref, length: u16, inputs: u8, ram: &mut R) -> u8
    requires length { length ≤ matrix_limit }
    requires source { HasRegisters (R.contents ram.old) top length }
    requires matrix { HasRegisters (R.contents ram.old) mid length }
    ensures { Acts (rule_effect rule top mid length) inputs result
        (R.contents ram.old) (R.contents ram.new) }
{
    let power = NodePower::of_bits(inputs).top;
    if power {
        combine_registers(rule, top, mid, length, ram);
    }
    passed_on(power)
}

/// AND: a bit of the matrix `mid` stays on where that of `top` is on too.
///
/// Input: the top node works. Output: the top node passes power on. Matrices have `length`
/// registers.
pub fn and<R: RefStore>(top: Ref, mid: Ref, length: u16, inputs: u8, ram: &mut R) -> u8
    requires { HasOperands (R.contents ram.old)
        (Element.Matrix MatrixOp.And (Operand.At top) mid length) }
    ensures { Acts (and_effect top mid length) inputs result
        (R.contents ram.old) (R.contents ram.new) }
{
    combine(Rule::Both, top, mid, length, inputs, ram)
}

/// OR: a bit of the matrix `mid` comes on where that of `top` is on.
///
/// Input, output and length are those of `and`.
pub fn or<R: RefStore>(top: Ref, mid: Ref, length: u16, inputs: u8, ram: &mut R) -> u8
    requires { HasOperands (R.contents ram.old)
        (Element.Matrix MatrixOp.Or (Operand.At top) mid length) }
    ensures { Acts (or_effect top mid length) inputs result
        (R.contents ram.old) (R.contents ram.new) }
{
    combine(Rule::Either, top, mid, length, inputs, ram)
}

/// XOR: a bit of the matrix `mid` changes where that of `top` is on.
///
/// Input, output and length are those of `and`.
pub fn xor<R: RefStore>(top: Ref, mid: Ref, length: u16, inputs: u8, ram: &mut R) -> u8
    requires { HasOperands (R.contents ram.old)
        (Element.Matrix MatrixOp.Xor (Operand.At top) mid length) }
    ensures { Acts (xor_effect top mid length) inputs result
        (R.contents ram.old) (R.contents ram.new) }
{
    combine(Rule::OneAlone, top, mid, length, inputs, ram)
}

fn invert_words(words: &mut [u16])
    ensures { words.new ≡ map (bit_not w16) words.old }
{
    for word in words.iter_mut() {
        *word = !*word;
    }
}

/// COMP: the matrix `mid` becomes the inverse of the matrix `top`.
///
/// Input, output and length are those of `and`.
pub fn comp<R: RefStore>(top: Ref, mid: Ref, length: u16, inputs: u8, ram: &mut R) -> u8
    requires { HasOperands (R.contents ram.old)
        (Element.Matrix MatrixOp.Comp (Operand.At top) mid length) }
    ensures { Acts (comp_effect top mid length) inputs result
        (R.contents ram.old) (R.contents ram.new) }
{
    let power = NodePower::of_bits(inputs).top;
    if power {
        let mut words = [0; MATRIX_LIMIT as usize];
        let words = &mut words[..usize::from(length)];
        load_words(ram, top, words);
        invert_words(words);
        store_words(ram, mid, words);
    }
    passed_on(power)
}
