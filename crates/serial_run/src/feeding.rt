//! Rows that a drop is given between two turns, and what the stations have noted so far.
ghost use Rattle.std.specs.Prelude.{◌≡◌, OnErr, OnOk};
ghost use Rattle.serial_run.specs.Feeding.{history_of, AreAsBefore, CanFeedNode, FedNode};
ghost use Rattle.serial_run.specs.Stations.{station_ring};

use crate::stations::Stations;
use controller_core::Entry;
use plant_types::ScriptRow;
use ring_core::RingEntry;
use std::alloc::AllocError;

impl Stations {
    /// Adds a row to the script of a drop of a node's controller; nothing where no controller has
    /// the node. The only error is that memory ran out; nothing changed then.
    pub fn feed_row(&mut self, node: u8, drop: u8, row: ScriptRow) -> Result<(), AllocError>
        requires { CanFeedNode node drop row self.old }
        ensures fed { OnOk result (FedNode node drop row self.old self.new) }
        ensures stays { OnErr result (AreAsBefore self.old self.new) }
    {
        match self.controller_at(node) {
            Some(at) => self.controllers[at].controller.feed_row(drop, row),
            None => Ok(()),
        }
    }

    /// What the controller of a node has noted; nothing where no controller has the node.
    pub fn history(&self, node: u8) -> &[Entry]
        ensures { result.now ≡ history_of node self.now }
    {
        match self.controller_at(node) {
            Some(at) => self.controllers[at].controller.history(),
            None => &[],
        }
    }

    /// What the ring of a network has noted; nothing where there is no such network.
    pub fn ring_history(&self, network: u8) -> &[RingEntry]
        ensures { result.now ≡ (station_ring self.now network).history }
    {
        match self.ring_at(network) {
            Some(place) => self.rings[place].ring.history(),
            None => &[],
        }
    }
}
