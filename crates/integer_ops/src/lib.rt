//! Integer arithmetic of ladder logic (*Modicon Ladder Logic Block Library User Guide*); its exact
//! inputs, outputs and limits are this project's own.
//!
//! Each is a block of three nodes that works while its top input is on; while it is off nothing
//! changes and no output is on. The operands and results of four digits go up to 9999.
#![tactic(auto)]

ghost use Rattle.plant_types.specs.Effect.{Acts};
ghost use Rattle.plant_types.specs.Store.{HasRegisters};
ghost use Rattle.integer_ops.specs.Arithmetic.{add_effect, sub_effect, mul_effect, div_effect};

use plant_types::{NodePower, Ref, RefStore, store_words};

/// The largest number of four digits.
const LARGEST: u16 = 9999;

/// One more than the largest number of four digits.
const BASE: u32 = 10_000;

/// Adds two numbers: the last four digits of the sum go to `low`.
///
/// The top output is on where the sum is above 9999.
#[tactic(auto, unfolding(crate::specs::Arithmetic::add_effect))]
pub fn add<R: RefStore>(a: u16, b: u16, low: Ref, inputs: u8, ram: &mut R) -> u8
    requires { HasRegisters (R.contents ram.old) low 1 }
    ensures { Acts (add_effect a b low) inputs result
        (R.contents ram.old) (R.contents ram.new) }
{
    if !NodePower::of_bits(inputs).top {
        return NodePower::OFF.bits();
    }
    let sum = u32::from(a) + u32::from(b);
    ram.set_word(low, (sum % BASE) as u16);
    NodePower {
        top: sum > u32::from(LARGEST),
        ..NodePower::OFF
    }
    .bits()
}

/// Subtracts and compares two numbers: the distance between them goes to `low`.
///
/// The top output is on where `a` is above `b`, the middle one where they are equal, the bottom one
/// where `a` is below `b`.
#[tactic(auto, unfolding(crate::specs::Arithmetic::sub_effect))]
pub fn sub<R: RefStore>(a: u16, b: u16, low: Ref, inputs: u8, ram: &mut R) -> u8
    requires { HasRegisters (R.contents ram.old) low 1 }
    ensures { Acts (sub_effect a b low) inputs result
        (R.contents ram.old) (R.contents ram.new) }
{
    if !NodePower::of_bits(inputs).top {
        return NodePower::OFF.bits();
    }
    ram.set_word(low, a.abs_diff(b));
    NodePower {
        top: a > b,
        middle: a == b,
        bottom: a < b,
    }
    .bits()
}

/// Multiplies two numbers of four digits: the upper four digits of the product go to `low`, the
/// lower four to the next register.
///
/// The top output is on. Where an operand is above 9999 nothing changes and no output is on.
#[tactic(auto, unfolding(crate::specs::Arithmetic::mul_effect))]
pub fn mul<R: RefStore>(a: u16, b: u16, low: Ref, inputs: u8, ram: &mut R) -> u8
    requires { HasRegisters (R.contents ram.old) low 2 }
    ensures { Acts (mul_effect a b low) inputs result
        (R.contents ram.old) (R.contents ram.new) }
{
    if !NodePower::of_bits(inputs).top || a > LARGEST || b > LARGEST {
        return NodePower::OFF.bits();
    }
    let product = u32::from(a) * u32::from(b);
    store_words(
        ram,
        low,
        &[(product / BASE) as u16, (product % BASE) as u16],
    );
    NodePower::TOP.bits()
}

/// Divides a number of eight digits by one of four: the quotient goes to `low`, and to the next
/// register the remainder, or its four decimal places while the middle input is on.
///
/// `high` and `units` are the upper and the lower four digits of the dividend; `high` is 0 where
/// the dividend is a constant. The top output is on after a division, the middle one where the
/// quotient is above 9999, the bottom one where the divisor is 0; without a division nothing
/// changes. Where `high`, `units` or `by` is above 9999 nothing changes and no output is on.
#[tactic(auto, unfolding(crate::specs::Arithmetic::div_effect))]
pub fn div<R: RefStore>(high: u16, units: u16, by: u16, low: Ref, inputs: u8, ram: &mut R) -> u8
    requires { HasRegisters (R.contents ram.old) low 2 }
    ensures { Acts (div_effect high units by low) inputs result
        (R.contents ram.old) (R.contents ram.new) }
{
    let inputs = NodePower::of_bits(inputs);
    if !inputs.top || high > LARGEST || units > LARGEST || by > LARGEST {
        return NodePower::OFF.bits();
    }
    if by == 0 {
        return NodePower::BOTTOM.bits();
    }
    let dividend = u32::from(high) * BASE + u32::from(units);
    let by = u32::from(by);
    let quotient = dividend / by;
    if quotient > u32::from(LARGEST) {
        return NodePower::MIDDLE.bits();
    }
    let remainder = dividend % by;
    let rest = if inputs.middle {
        remainder * BASE / by
    } else {
        remainder
    };
    store_words(ram, low, &[quotient as u16, rest as u16]);
    NodePower::TOP.bits()
}
