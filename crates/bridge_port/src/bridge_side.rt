//! A bridge as the worker of one of its ends has it: by itself, or behind a gate that the worker of
//! the other end passes too.
ghost use Rattle.std.specs.Prelude.{◌≡◌, ◌∷◌, [], List, Bool, true};
ghost use Rattle.bridge_relay.specs.Legal.{IsBridgeHistory, IsEnd, IsOpenEnd, is_call_out};
ghost use Rattle.bridge_relay.specs.Machine.{is_idle_end, none_out};
ghost use Rattle.bridge_relay.specs.declared.entry.BridgeEntry.TheVariants.{Accept, Finish, Gone};
ghost use Rattle.comm_port.specs.Sides.{MayWrite};
ghost use Rattle.bridge_relay.specs.Laws.{end_after};
ghost use Rattle.bridge_port.specs.Sides.{EndAdds, EndAddsNothing, Forwards, GivesBack};

use bridge_relay::RelayResult;
use mstr_block::CallId;
use plant_types::{Pdu, Route};
use ring_core::Frame;
use std::alloc::AllocError;

/// The calls of a bridge that the workers of its ends make. A contract sees its plan and its
/// history as far as it is known here; each call goes on from there with entries of the other end,
/// none where nobody else writes, and then with its own one. Each question is answered by the
/// history known then.
pub trait BridgeSide {
    ghost use Rattle.bridge_port.specs.Sides.{BridgeSideIs};
    ghost use Rattle.bridge_relay.specs.declared.entry.BridgeEntry.{BridgeEntry};

    /// What names the place of the bridge, as its gate.
    type Place;

    /// Its plan, the end in whose name alone it may write, and its place: what no call changes.
    ghost bridge: { Self → BridgeSideIs Self.Place };

    /// The history as far as it is known.
    ghost known: { Self → List BridgeEntry };

    /// Whether nobody else writes.
    ghost alone: { Bool };

    /// Whether an end has nothing to send, out or to give back.
    fn is_idle(&mut self, side: u8) -> bool
        requires serves { MayWrite (bridge self.old).writer side }
        requires end { IsEnd (bridge self.old).plan side }
        ensures answer { result
            ≡ is_idle_end (end_after (bridge self.old).plan (known self.new) side) }
        ensures went { EndAddsNothing alone known side self.old self.new }
        ensures legal { IsBridgeHistory (bridge self.old).plan (known self.new) }
        ensures same { bridge self.new ≡ bridge self.old };

    /// Takes a request of another node, with what is left of its route.
    fn accept(
        &mut self,
        side: u8,
        id: CallId,
        route: Route,
        request: &Pdu,
    ) -> Result<(), AllocError>
        requires serves { MayWrite (bridge self.old).writer side }
        requires is_open { IsOpenEnd (bridge self.old).plan (known self.old) side }
        ensures went { EndAdds alone known side self.old self.new result
            (λ _. Accept side id route request.now ∷ []) }
        ensures legal { IsBridgeHistory (bridge self.old).plan (known self.new) }
        ensures same { bridge self.new ≡ bridge self.old };

    /// Sends the next request on, and answers its frame; none exactly where nothing waits to go out
    /// there or no path of the end is free.
    fn forward(&mut self, side: u8) -> Result<Option<Frame>, AllocError>
        requires serves { MayWrite (bridge self.old).writer side }
        requires is_open { IsOpenEnd (bridge self.old).plan (known self.old) side }
        ensures went { Forwards alone known (bridge self.old).plan side self.old self.new result }
        ensures legal { IsBridgeHistory (bridge self.old).plan (known self.new) }
        ensures same { bridge self.new ≡ bridge self.old };

    /// Ends a call that is out.
    fn finish(&mut self, side: u8, id: CallId, outcome: RelayResult) -> Result<(), AllocError>
        requires serves { MayWrite (bridge self.old).writer side }
        requires is_open { IsOpenEnd (bridge self.old).plan (known self.old) side }
        requires out { is_call_out (bridge self.old).plan (known self.old) side id ≡ true }
        ensures went { EndAdds alone known side self.old self.new result
            (λ _. Finish side id outcome ∷ []) }
        ensures legal { IsBridgeHistory (bridge self.old).plan (known self.new) }
        ensures same { bridge self.new ≡ bridge self.old };

    /// Gives the next reply back, and answers its frame; none exactly where no reply waits there.
    fn back(&mut self, side: u8) -> Result<Option<Frame>, AllocError>
        requires serves { MayWrite (bridge self.old).writer side }
        requires is_open { IsOpenEnd (bridge self.old).plan (known self.old) side }
        ensures went { GivesBack alone known (bridge self.old).plan side self.old self.new result }
        ensures legal { IsBridgeHistory (bridge self.old).plan (known self.new) }
        ensures same { bridge self.new ≡ bridge self.old };

    /// An end of which no call is out leaves for good.
    fn gone(&mut self, side: u8) -> Result<(), AllocError>
        requires serves { MayWrite (bridge self.old).writer side }
        requires is_open { IsOpenEnd (bridge self.old).plan (known self.old) side }
        requires none_out { none_out
            (end_after (bridge self.old).plan (known self.old) side) ≡ true }
        ensures went { EndAdds alone known side self.old self.new result
            (λ _. Gone side ∷ []) }
        ensures legal { IsBridgeHistory (bridge self.old).plan (known self.new) }
        ensures same { bridge self.new ≡ bridge self.old };
}
