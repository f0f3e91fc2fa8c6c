//! The rings of a run behind their gates, and pass 0 of each.
ghost use Rattle.std.specs.Prelude.{◌≡◌, ◌<◌, Some, None, All, [], true, is_some, length, IfOk};
ghost use Rattle.std.specs.List.{AllZip, position};
ghost use Rattle.turn_gate.specs.Known.{first_pass};
ghost use Rattle.ring_core.specs.Machine.{addresses};
ghost use Rattle.plant_types.specs.Plans.{IsNetPlan};
ghost use Rattle.live_run.specs.Homes.{HasRing, IsAtHome, IsSeated, IsUnseated, KeepsFor};
ghost use Rattle.live_run.specs.Homes.{KeepsZero, is_ring_of, place_of_ring};
ghost use Rattle.live_run.specs.Closing.{ClosedTo, IsClosable};

use gated_sides::{GatedRing, Meet, RingCell};
use joint_history::RingLog;
use live_workers::Run;
use plant_types::NetPlan;
use ring_core::Ring;
use std::alloc::{AllocError, Global};
use std::marker::Model;
use std::mem::replace;
use std::sync::Wait;
use std::sync::atomic::AtomicU64;
use turn_gate::{Gate, Pass};

/// The ring of a network behind its gate, and a word that tells outside which node was given its
/// token last. A contract sees the gate.
pub(crate) struct RingHome {
    gate: Gate<RingCell>,
    token: AtomicU64,
    number: u8,
}

impl Model for RingHome {
    ghost use Rattle.std.specs.Prelude.{◌≡◌};
    ghost use Rattle.live_run.specs.Homes.{RingGate};

    ghost Value = { RingGate };

    ghost view = { λ h. h.gate };

    ghost invariant = { λ h. h.number ≡ h.gate.fixed.number };
}

impl RingHome {
    /// The ring of a network, on which nothing was noted, and its pass 0.
    pub(crate) fn new(
        alloc: Global,
        net: &NetPlan,
    ) -> Result<(RingHome, Pass<RingCell>), AllocError>
        requires net { IsNetPlan net.now }
        ensures fixed { IfOk result (λ made. made.0.fixed ≡ net.now) }
        ensures unused { IfOk result (λ made. made.0.name.opening ≡ []) }
        ensures pass { IfOk result (λ made. made.1 ≡ first_pass made.0.name) }
    {
        let ring = Ring::new(alloc, net)?;
        let token = AtomicU64::new(u64::from(ring.holder()));
        let (gate, pass) = Gate::new(alloc, RingCell::new(ring))?;
        let number = net.number;
        Ok((
            RingHome {
                gate,
                token,
                number,
            },
            pass,
        ))
    }

    /// Whether it is the ring of this network.
    fn is_of(&self, network: u8) -> bool
        ensures { result ≡ is_ring_of network self.now }
    {
        self.number == network
    }

    /// What was noted on the ring; all passes are back.
    pub(crate) fn close(self, purse: Option<Pass<RingCell>>) -> RingLog
        requires { IsClosable self purse }
        ensures { ClosedTo self purse result }
    {
        let RingHome {
            gate,
            token: _,
            number,
        } = self;
        let pass = passed_out(purse);
        RingLog {
            network: number,
            entries: gate.close(pass).into_inner().into_history(),
        }
    }
}

/// The pass that is kept.
fn passed_out(purse: Option<Pass<RingCell>>) -> Pass<RingCell>
    requires { is_some purse ≡ true }
    ensures { purse ≡ Some result }
{
    match purse {
        Some(pass) => pass,
        None => unreachable!(),
    }
}

/// The first of these rings that is of a network.
fn first_of(homes: &[RingHome], network: u8) -> Option<usize>
    ensures { result ≡ position (is_ring_of network) homes.now }
{
    homes.iter().position(|home| home.is_of(network))
}

/// The place of the ring of a network.
fn place_of(homes: &[RingHome], network: u8) -> usize
    requires { HasRing homes.now network }
    ensures place { result ≡ place_of_ring homes.now network }
    ensures within { result < length homes.now }
{
    match first_of(homes, network) {
        Some(place) => place,
        None => unreachable!(),
    }
}

/// Takes a pass out of where it is kept.
fn take_out(purse: &mut Option<Pass<RingCell>>) -> Pass<RingCell>
    requires { is_some purse.old ≡ true }
    ensures is { purse.old ≡ Some result }
    ensures none { purse.new ≡ None }
{
    match purse.take() {
        Some(pass) => pass,
        None => unreachable!(),
    }
}

/// Puts a pass back to where it is kept.
fn put_back(purse: &mut Option<Pass<RingCell>>, pass: Pass<RingCell>)
    requires { purse.old ≡ None }
    ensures { purse.new ≡ Some pass }
{
    match replace(purse, Some(pass)) {
        Some(_) => unreachable!(),
        None => {}
    }
}

/// Gives a node a pass of the ring of its network, and a side.
pub(crate) fn seat<'a, M: Meet, R: Wait>(
    run: &Run<'a, M, R>,
    homes: &'a [RingHome],
    purses: &mut [Option<Pass<RingCell>>],
    network: u8,
    node: u8,
) -> GatedRing<'a, M, R>
    requires members { All (λ gate. All (λ m. m < addresses) gate.fixed.members) homes.now }
    requires there { HasRing homes.now network }
    requires keeps { AllZip (KeepsFor node) homes.now purses.old }
    ensures { IsSeated homes.now purses.old purses.new network node result }
{
    let place = place_of(homes, network);
    let home = &homes[place];
    let zero = take_out(&mut purses[place]);
    let (zero, other) = home.gate.split(zero, u32::from(node));
    put_back(&mut purses[place], zero);
    GatedRing::new(run.rt, run.meet, &home.token, &home.gate, other)
}

/// Puts the pass of a side back into pass 0 of its ring.
pub(crate) fn unseat<M: Meet, R: Wait>(
    homes: &[RingHome],
    purses: &mut [Option<Pass<RingCell>>],
    network: u8,
    side: GatedRing<'_, M, R>,
)
    requires at { IsAtHome homes.now network side }
    requires keeps { AllZip KeepsZero homes.now purses.old }
    ensures { IsUnseated homes.now purses.old purses.new network side.entry }
{
    let place = place_of(homes, network);
    let home = &homes[place];
    let zero = take_out(&mut purses[place]);
    let zero = home.gate.join(zero, side.into_pass());
    put_back(&mut purses[place], zero);
}
