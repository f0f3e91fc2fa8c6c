//! Timers and counters of ladder logic (*Modicon Ladder Logic Block Library User Guide*); their
//! exact inputs, outputs and limits are this project's own.
//!
//! Each is a block of two nodes, the upper one and the lower one. In the bits of a block's power
//! the upper node is bit 0 and the lower one bit 1.
#![tactic(auto)]

ghost use Rattle.std.specs.Prelude.{◌≡◌, ◌+◌, ◌<◌, min};
ghost use Rattle.plant_types.specs.Effect.{Acts};
ghost use Rattle.plant_types.specs.Power.{nodes_of};
ghost use Rattle.plant_types.specs.Store.{HasRegisters};
ghost use Rattle.timer_ops.specs.Timer.{ticks_in, units_passed, timer_effect};
ghost use Rattle.timer_ops.specs.Counter.{is_edge, up_count_effect, down_count_effect};

use plant_types::{NodePower, Ref, RefStore, Unit};

/// The clock of a controller in ticks of 10 ms, as this scan began and as the scan before began.
#[derive(Clone, Copy, Debug, PartialEq, Eq)]
pub struct Clock {
    /// At most `now`; where it is more, no time passes.
    pub before: u64,
    pub now: u64,
}

/// The ticks in a unit.
fn ticks(unit: Unit) -> u64
    ensures value { result ≡ ticks_in unit }
    ensures some { 0 < result }
{
    match unit {
        Unit::Second => 100,
        Unit::Tenth => 10,
        Unit::Hundredth => 1,
    }
}

/// How many units ended between the two readings of the clock.
fn passed(unit: Unit, clock: Clock) -> u64
    ensures { result ≡ units_passed unit clock }
{
    let ticks = ticks(unit);
    (clock.now / ticks).saturating_sub(clock.before / ticks)
}

/// The time so far and what it gains, up to the preset.
fn lengthened(time: u16, gained: u64, preset: u16) -> u16
    ensures { result ≡ min preset (time + gained) }
{
    u64::from(time)
        .saturating_add(gained)
        .min(u64::from(preset)) as u16
}

/// Adds the time since the scan before to its accumulator, up to the preset.
///
/// The upper input lets time pass, the lower one enables the timer: while it is off the accumulator
/// is 0. The upper output is on where the preset is reached, the lower one before.
#[tactic(auto, unfolding(crate::specs::Timer::timer_effect))]
pub fn timer<R: RefStore>(
    unit: Unit,
    preset: u16,
    acc: Ref,
    inputs: u8,
    clock: Clock,
    ram: &mut R,
) -> u8
    requires { HasRegisters (R.contents ram.old) acc 1 }
    ensures { Acts (timer_effect unit preset acc clock) inputs result
        (R.contents ram.old) (R.contents ram.new) }
{
    let inputs = NodePower::of_bits(inputs);
    let gained = if inputs.top { passed(unit, clock) } else { 0 };
    let time = if inputs.middle {
        lengthened(ram.word(acc), gained, preset)
    } else {
        0
    };
    ram.set_word(acc, time);
    NodePower {
        top: time == preset,
        middle: time < preset,
        bottom: false,
    }
    .bits()
}

/// Whether the upper input goes on at this solve; the edge bit becomes that input.
fn rises(inputs: NodePower, edge: &mut bool) -> bool
    ensures rises { result ≡ is_edge inputs edge.old }
    ensures edge { edge.new ≡ inputs.top }
{
    let was_on = *edge;
    *edge = inputs.top;
    inputs.top && !was_on
}

/// Counts up to the preset, by one each time that its upper input goes on.
///
/// The lower input enables the counter: while it is off the accumulator is 0. The upper output is
/// on where the preset is reached, the lower one before. `edge` is the upper input of the solve
/// before.
#[tactic(auto, unfolding(crate::specs::Counter::up_count_effect))]
pub fn up_count<R: RefStore>(preset: u16, acc: Ref, inputs: u8, edge: &mut bool, ram: &mut R) -> u8
    requires { HasRegisters (R.contents ram.old) acc 1 }
    ensures does { Acts (up_count_effect preset acc edge.old) inputs result
        (R.contents ram.old) (R.contents ram.new) }
    ensures edge { edge.new ≡ (nodes_of inputs).top }
{
    let inputs = NodePower::of_bits(inputs);
    let rises = rises(inputs, edge);
    let held = ram.word(acc).min(preset);
    let count = if !inputs.middle {
        0
    } else if rises && held < preset {
        held + 1
    } else {
        held
    };
    ram.set_word(acc, count);
    NodePower {
        top: count == preset,
        middle: count < preset,
        bottom: false,
    }
    .bits()
}

/// Counts from the preset down to 0, by one each time that its upper input goes on.
///
/// The lower input enables the counter: while it is off the accumulator is the preset. The upper
/// output is on at 0, the lower one above. `edge` is the upper input of the solve before.
#[tactic(auto, unfolding(crate::specs::Counter::down_count_effect))]
pub fn down_count<R: RefStore>(
    preset: u16,
    acc: Ref,
    inputs: u8,
    edge: &mut bool,
    ram: &mut R,
) -> u8
    requires { HasRegisters (R.contents ram.old) acc 1 }
    ensures does { Acts (down_count_effect preset acc edge.old) inputs result
        (R.contents ram.old) (R.contents ram.new) }
    ensures edge { edge.new ≡ (nodes_of inputs).top }
{
    let inputs = NodePower::of_bits(inputs);
    let rises = rises(inputs, edge);
    let held = ram.word(acc).min(preset);
    let count = if !inputs.middle {
        preset
    } else if rises && held > 0 {
        held - 1
    } else {
        held
    };
    ram.set_word(acc, count);
    NodePower {
        top: count == 0,
        middle: count > 0,
        bottom: false,
    }
    .bits()
}
