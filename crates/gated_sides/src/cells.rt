//! What the gates keep: a controller, a ring, a bridge.
ghost use Rattle.std.specs.Prelude.{◌≡◌};
ghost use Rattle.std.specs.Borrow.{Lends, sem};
ghost use Rattle.gated_sides.specs.Cells.{controller_in, with_controller, ring_in, with_ring};
ghost use Rattle.gated_sides.specs.Cells.{bridge_in, with_bridge};
ghost use Rattle.gated_sides.specs.contracts.cells.RamCell.{the_row as ram_row};
ghost use Rattle.gated_sides.specs.contracts.cells.RingCell.{the_row as ring_row};
ghost use Rattle.gated_sides.specs.contracts.cells.BridgeCell.{the_row as bridge_cell_row};
ghost use Rattle.bridge_relay.specs.contracts.bridge.Bridge.{the_row as bridge_row};
ghost use Rattle.controller_core.specs.contracts.controller.Controller.{the_row as controller_row};
ghost use Rattle.ring_core.specs.contracts.ring.Ring.{the_row as plain_ring_row};

use bridge_relay::{Bridge, BridgeEntry};
use controller_core::{Controller, Entry, Fixed};
use plant_types::{BridgePlan, NetPlan};
use ring_core::{Ring, RingEntry};
use turn_gate::Journal;

/// A controller as a gate keeps it: its history is the gate's list, its fixed part the gate's.
#[derive(Drop)]
pub struct RamCell {
    controller: Controller,
}

impl RamCell {
    /// The cell of a controller; takes no memory.
    pub fn new(value: Controller) -> RamCell
        ensures { controller_in result ≡ value }
    {
        RamCell { controller: value }
    }

    /// The controller alone; takes no memory.
    pub fn into_inner(self) -> Controller
        ensures { result ≡ controller_in self }
    {
        self.controller
    }

    /// The controller, to be changed.
    pub fn get_mut(&mut self) -> &mut Controller
        ensures* writes_back { sem 𝓛
            (Lends ram_row controller_row self.entry result (with_controller self.old)) }
        ensures value { result.now ≡ controller_in self.old }
    {
        &mut self.controller
    }
}

impl Journal for RamCell {
    ghost use Rattle.gated_sides.specs.Cells.{maker_number};

    type Entry = Entry;

    type Fixed = Fixed;

    ghost entries = { λ c. c.controller.history };

    ghost fixed = { λ c. c.controller.fixed };

    ghost maker = { maker_number };
}

/// The ring as a gate keeps it: its history is the gate's list, its plan the gate's fixed part.
#[derive(Drop)]
pub struct RingCell {
    ring: Ring,
}

impl RingCell {
    /// The cell of a ring; takes no memory.
    pub fn new(value: Ring) -> RingCell
        ensures { ring_in result ≡ value }
    {
        RingCell { ring: value }
    }

    /// The ring alone; takes no memory.
    pub fn into_inner(self) -> Ring
        ensures { result ≡ ring_in self }
    {
        self.ring
    }

    /// The ring, to be changed.
    pub fn get_mut(&mut self) -> &mut Ring
        ensures* writes_back { sem 𝓛
            (Lends ring_row plain_ring_row self.entry result (with_ring self.old)) }
        ensures value { result.now ≡ ring_in self.old }
    {
        &mut self.ring
    }
}

impl Journal for RingCell {
    ghost use Rattle.ring_core.specs.Words.{maker};

    type Entry = RingEntry;

    type Fixed = NetPlan;

    ghost entries = { λ c. c.ring.history };

    ghost fixed = { λ c. c.ring.net };

    ghost maker = { maker };
}

/// The bridge as a gate keeps it: its history is the gate's list, its plan the gate's fixed part.
#[derive(Drop)]
pub struct BridgeCell {
    bridge: Bridge,
}

impl BridgeCell {
    /// The cell of a bridge; takes no memory.
    pub fn new(value: Bridge) -> BridgeCell
        ensures { bridge_in result ≡ value }
    {
        BridgeCell { bridge: value }
    }

    /// The bridge alone; takes no memory.
    pub fn into_inner(self) -> Bridge
        ensures { result ≡ bridge_in self }
    {
        self.bridge
    }

    /// The bridge, to be changed.
    pub fn get_mut(&mut self) -> &mut Bridge
        ensures* writes_back { sem 𝓛
            (Lends bridge_cell_row bridge_row self.entry result (with_bridge self.old)) }
        ensures value { result.now ≡ bridge_in self.old }
    {
        &mut self.bridge
    }
}

impl Journal for BridgeCell {
    ghost use Rattle.bridge_relay.specs.Machine.{side_of};

    type Entry = BridgeEntry;

    type Fixed = BridgePlan;

    ghost entries = { λ c. c.bridge.history };

    ghost fixed = { λ c. c.bridge.plan };

    ghost maker = { side_of };
}
