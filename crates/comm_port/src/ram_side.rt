//! A controller as its worker has it: by itself, or behind a gate that its scan passes too.
ghost use Rattle.std.specs.Prelude.{◌≡◌, ◌∷◌, [], List, Bool, true, IfOk};
ghost use Rattle.controller_core.specs.Controller.{IsLegal};
ghost use Rattle.controller_core.specs.Event.{peer_entry};
ghost use Rattle.controller_core.specs.declared.entry.Entry.TheVariants.{Collect, Finish};
ghost use Rattle.tied_lists.specs.Calls.{IsOut};
ghost use Rattle.joint_history.specs.Reading.{items_of, has_ended_at, has_started_at};
ghost use Rattle.joint_history.specs.Reading.{failures_at, is_off_at};
ghost use Rattle.comm_port.specs.Sides.{AreStarted, CallNotes, NotesNothing};

use controller_core::Call;
use mstr_block::{CallId, MstrResult};
use plant_types::{List, Pdu};
use std::alloc::AllocError;

/// The calls of a controller that its communication makes. A contract sees its fixed part and its
/// history as far as it is known here; each call goes on from there with events of the scan, none
/// where nobody else writes, and then with its own one. Each question is answered by the history
/// known then. None of them reserves memory.
pub trait RamSide {
    ghost use Rattle.comm_port.specs.Sides.{RamSideIs};
    ghost use Rattle.controller_core.specs.declared.entry.Entry.{Entry};

    /// What names the place of the controller, as its gate.
    type Place;

    /// Its fixed part and its place: what no call changes.
    ghost side: { Self → RamSideIs Self.Place };

    /// The history as far as it is known.
    ghost known: { Self → List Entry };

    /// Whether nobody else writes.
    ghost alone: { Bool };

    /// Whether the memory of a scan's steps is kept; told only where nobody else writes.
    ghost reserved: { Self → Bool };

    /// All calls that were started and not yet collected, in the order of their blocks. Each is
    /// new.
    fn collect(&mut self) -> Result<List<Call>, AllocError>
        requires { has_started_at (side self.old).fixed (known self.old) ≡ true }
        ensures went { CallNotes alone known reserved self.old self.new result
            (λ calls. Collect calls ∷ []) }
        ensures fresh { IfOk result
            (λ calls. AreStarted (side self.old).fixed (known self.old) calls) }
        ensures legal { IsLegal (side self.old).fixed (known self.new) }
        ensures same { side self.new ≡ side self.old };

    /// Takes a request of another node: the reply, or none exactly where there is no power.
    fn peer(&mut self, id: CallId, request: &Pdu) -> Result<Option<Pdu>, AllocError>
        ensures went { CallNotes alone known reserved self.old self.new result
            (λ reply. peer_entry id request.now reply ∷ []) }
        ensures legal { IsLegal (side self.old).fixed (known self.new) }
        ensures same { side self.new ≡ side self.old };

    /// Ends a call that was collected and has not ended.
    fn finish(&mut self, id: CallId, outcome: MstrResult) -> Result<(), AllocError>
        requires { IsOut (items_of (known self.old)) id }
        ensures went { CallNotes alone known reserved self.old self.new result
            (λ _. Finish id outcome ∷ []) }
        ensures legal { IsLegal (side self.old).fixed (known self.new) }
        ensures same { side self.new ≡ side self.old };

    /// Whether a call was started and not yet collected.
    fn has_started(&mut self) -> bool
        ensures answer { result ≡ has_started_at (side self.old).fixed (known self.new) }
        ensures went { NotesNothing alone known reserved self.old self.new }
        ensures legal { IsLegal (side self.old).fixed (known self.new) }
        ensures same { side self.new ≡ side self.old };

    /// Whether all scans are gone, or the controller has stopped.
    fn has_ended(&mut self) -> bool
        ensures answer { result ≡ has_ended_at (side self.old).fixed (known self.new) }
        ensures went { NotesNothing alone known reserved self.old self.new }
        ensures legal { IsLegal (side self.old).fixed (known self.new) }
        ensures same { side self.new ≡ side self.old };

    /// How often power failed.
    fn failures(&mut self) -> u32
        ensures answer { result ≡ failures_at (side self.old).fixed (known self.new) }
        ensures went { NotesNothing alone known reserved self.old self.new }
        ensures legal { IsLegal (side self.old).fixed (known self.new) }
        ensures same { side self.new ≡ side self.old };

    /// Whether there is no power.
    fn is_off(&mut self) -> bool
        ensures answer { result ≡ is_off_at (side self.old).fixed (known self.new) }
        ensures went { NotesNothing alone known reserved self.old self.new }
        ensures legal { IsLegal (side self.old).fixed (known self.new) }
        ensures same { side self.new ≡ side self.old };
}
