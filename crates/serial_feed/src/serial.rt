//! A serial run as a value, which stands between two of its repetitions.
ghost use Rattle.std.specs.Prelude.{◌≡◌, ◌≤◌, true, IfOk, OnErr, OnOk};
ghost use Rattle.plant_types.specs.Limits.{most_scans};
ghost use Rattle.joint_history.specs.Runnable.{CanRunPlant};
ghost use Rattle.serial_run.specs.Feeding.{history_of, CanFeedNode};
ghost use Rattle.serial_run.specs.Stations.{station_ring};
ghost use Rattle.serial_feed.specs.Standing.{are_gone, Begins, FedFor, StaysFor, Turned};
ghost use Rattle.serial_feed.specs.Standing.{IsNotedOfEach, IsRunOfEach};

use controller_core::{Entry, notes_ask_no_scans};
use joint_history::{Joint, Noted};
use plant_types::{Plant, ScriptRow};
use ring_core::RingEntry;
use serial_run::{
    Stations, controllers_complete, effects_are_right, hosts_complete, joint_is_in_one_order,
    noted_of,
};
use std::alloc::{AllocError, Global};
use std::marker::Model;

/// A serial run that has made some of its repetitions, for its plant with the rows fed so far. This
/// project's own.
#[derive(Drop)]
pub struct Serial {
    alloc: Global,
    run: Stations,
    rotations: u32,
}

impl Model for Serial {
    ghost use Rattle.serial_feed.specs.Standing.{SerialIs, StandsForSome};

    ghost Value = { SerialIs };

    ghost view = { λ s. record { run = s.run; rotations = s.rotations } };

    ghost invariant = { λ s.
        StandsForSome (record { run = s.run; rotations = s.rotations }) };
}

impl Serial {
    /// The serial run of a plant before its first repetition. The only error is that memory ran
    /// out.
    pub fn new(alloc: Global, plant: &Plant, scans: u32) -> Result<Serial, AllocError>
        requires plant { CanRunPlant plant.now }
        requires scans { scans ≤ most_scans }
        ensures { IfOk result (Begins plant.now scans) }
    {
        let run = Stations::new(alloc, plant, scans)?;
        let rotations = plant.first_net().rotations;
        Ok(Serial {
            alloc,
            run,
            rotations,
        })
    }

    /// One repetition, or nothing where all scans are gone; and whether scans are left. The only
    /// error is that memory ran out; then the run is given up.
    pub fn turn(self) -> Result<(Serial, bool), AllocError>
        ensures { IfOk result (λ made. Turned self made.0 made.1) }
    {
        let Serial {
            alloc,
            mut run,
            rotations,
        } = self;
        if !run.have_ended() {
            run.repetition(rotations)?;
        }
        let goes_on = !run.have_ended();
        let serial = Serial {
            alloc,
            run,
            rotations,
        };
        Ok((serial, goes_on))
    }

    /// Adds a row to the script of a drop of a node's controller. The only error is that memory ran
    /// out; nothing changed then.
    pub fn feed_row(&mut self, node: u8, drop: u8, row: ScriptRow) -> Result<(), AllocError>
        requires { CanFeedNode node drop row self.old.run }
        ensures fed { OnOk result (FedFor node drop row self.old self.new) }
        ensures stays { OnErr result (StaysFor self.old self.new) }
    {
        self.run.feed_row(node, drop, row)
    }

    /// What the controller of a node has noted; nothing where no controller has the node.
    pub fn history(&self, node: u8) -> &[Entry]
        ensures { result.now ≡ history_of node self.now.run }
    {
        self.run.history(node)
    }

    /// What the ring of a network has noted; nothing where there is no such network. The network
    /// of a plant of version 1 is 0.
    pub fn ring_history(&self, network: u8) -> &[RingEntry]
        ensures { result.now ≡ (station_ring self.now.run network).history }
    {
        self.run.ring_history(network)
    }

    /// The rounds and visits that are left once all scans are gone, and what all stations, bridges
    /// and rings noted, with what the controllers noted of their panels. The only error is that
    /// memory ran out.
    pub fn finish_noted(self) -> Result<Noted, AllocError>
        requires { are_gone self ≡ true }
        ensures { IfOk result (IsNotedOfEach self) }
    {
        effects_are_right();
        joint_is_in_one_order();
        notes_ask_no_scans();
        controllers_complete();
        hosts_complete();
        let Serial {
            alloc,
            mut run,
            rotations: _,
        } = self;
        run.finish()?;
        noted_of(alloc, run)
    }

    /// The joint history of `finish_noted` alone.
    pub fn finish(self) -> Result<Joint, AllocError>
        requires { are_gone self ≡ true }
        ensures { IfOk result (IsRunOfEach self) }
    {
        let noted = self.finish_noted()?;
        Ok(noted.joint)
    }
}
