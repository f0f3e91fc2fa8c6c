//! The serial run, part by part.
ghost use Rattle.std.specs.Prelude.{◌≡◌, ◌<◌, true, false, OnOk};
ghost use Rattle.serial_run.specs.Serial.{away_turns_of, scanned, visits_of, Finishes};
ghost use Rattle.serial_run.specs.Serial.{IsRepetition, MakesLateRounds, MakesRound, MakesRounds};
ghost use Rattle.serial_run.specs.Serial.{Repeats};
ghost use Rattle.serial_run.specs.Turns.{MakesTurns};
ghost use Rattle.serial_run.specs.Stations.{Did, DidWith, Stand};
ghost use Rattle.serial_run.specs.Scans.{have_ended, steps_left, AreBetweenScans, KeepScans};
ghost use Rattle.serial_run.specs.Held.{is_in_ring, members_in, members_of_ring, site_has_left};
ghost use Rattle.serial_run.specs.Held.{stations_here, AllHave, IsOffAway, IsVisited, Lessens};
ghost use Rattle.serial_run.specs.Held.{RoundOn, Stay};

use crate::stations::{BridgeSite, RingStation, Stations};
use bridge_station::somebody_holds;
use ring_core::{NodeStatus, Ring};
use std::alloc::AllocError;
use whole_scan::scan;

/// Whether a node is a member of the ring now.
fn is_in(node: u8, ring: &Ring) -> bool
    ensures { result ≡ is_in_ring ring.now node }
{
    let _ = ring.history();
    ring.is_member(node) && matches!(ring.status(node), NodeStatus::In)
}

impl RingStation {
    /// How many members the ring has now.
    fn members_of_ring(&self) -> usize
        ensures { result ≡ members_of_ring self.now }
    {
        let ring = &self.ring;
        self.members
            .as_slice()
            .iter()
            .filter(|node| is_in(**node, ring))
            .count()
    }
}

impl BridgeSite {
    /// Whether both ends have left.
    fn has_left(&self) -> bool
        ensures { result ≡ site_has_left self.now }
    {
        self.station.has_left(self.plan.left) && self.station.has_left(self.plan.right)
    }
}

impl Stations {
    /// How many members the ring of a network has now.
    fn members(&self, network: u8) -> usize
        requires { Stand self.now }
        ensures { result ≡ members_in self.now network }
    {
        match self.ring_at(network) {
            Some(place) => self.rings[place].members_of_ring(),
            None => 0,
        }
    }

    /// How many stations, and how many bridges, have not left all their rings, or ask to come in.
    fn here(&self) -> usize
        ensures { result ≡ stations_here self.now }
    {
        let controllers = self
            .controllers
            .iter()
            .filter(|station| !station.left)
            .count();
        let hosts = self.hosts.iter().filter(|station| !station.left).count();
        let bridges = self.bridges.iter().filter(|site| !site.has_left()).count();
        controllers + hosts + bridges
    }

    /// Whether all controllers have ended.
    pub fn have_ended(&self) -> bool
        ensures { result ≡ have_ended self.now }
    {
        self.controllers
            .iter()
            .all(|station| station.controller.has_ended())
    }

    /// Each controller whose scans are not gone makes one whole scan, or stops in it.
    fn scan_all(&mut self) -> Result<(), AllocError>
        requires stand { Stand self.old }
        requires between { AreBetweenScans self.old }
        ensures scans { OnOk result (Did (λ plant scans old new. new ≡ scanned plant scans old)
            self.old self.new) }
        ensures between { OnOk result (AreBetweenScans self.new) }
        ensures less { OnOk result (have_ended self.old ≡ false
            → steps_left self.new < steps_left self.old) }
    {
        for at in 0..self.controllers.len() {
            scan(&mut self.controllers[at].controller)?;
        }
        Ok(())
    }

    /// Each controller that is away and has power asks to come in again.
    fn come_back_all(&mut self) -> Result<(), AllocError>
        requires { Stand self.old }
        ensures came { OnOk result
            (Did (λ plant scans. MakesTurns plant scans (away_turns_of plant)) self.old self.new) }
        ensures scans { OnOk result (KeepScans self.old self.new) }
        ensures off { OnOk result (AllHave IsOffAway self.new) }
    {
        for at in 0..self.controllers.len() {
            let node = self.controllers[at].node;
            self.away(node)?;
        }
        Ok(())
    }

    /// The visits of all controllers, as far as they are due.
    fn visit_all(&mut self) -> Result<(), AllocError>
        requires { Stand self.old }
        ensures visits { OnOk result (Did (λ plant scans. MakesTurns plant scans (visits_of plant))
            self.old self.new) }
        ensures scans { OnOk result (KeepScans self.old self.new) }
        ensures off { OnOk result (Stay IsOffAway self.old self.new) }
        ensures visited { OnOk result (AllHave IsVisited self.new) }
        ensures here { OnOk result (stations_here self.new ≡ stations_here self.old) }
    {
        for at in 0..self.controllers.len() {
            let node = self.controllers[at].node;
            self.visit(node)?;
        }
        Ok(())
    }

    /// A round of one network: as many hold turns as its ring has members at its beginning.
    fn round_on(&mut self, network: u8) -> Result<(), AllocError>
        requires { Stand self.old }
        ensures { OnOk result (RoundOn network self.old self.new) }
    {
        somebody_holds();
        for _ in 0..self.members(network) {
            self.hold(network)?;
        }
        Ok(())
    }

    /// A round: one of each network.
    fn round(&mut self) -> Result<(), AllocError>
        requires { Stand self.old }
        ensures round { OnOk result (Did MakesRound self.old self.new) }
        ensures scans { OnOk result (KeepScans self.old self.new) }
        ensures less { OnOk result (Lessens self.old self.new) }
        ensures off { OnOk result (Stay IsOffAway self.old self.new) }
    {
        somebody_holds();
        for place in 0..self.rings.len() {
            let network = self.rings[place].network;
            self.round_on(network)?;
        }
        Ok(())
    }

    /// So many rounds.
    fn rounds(&mut self, count: u32) -> Result<(), AllocError>
        requires { Stand self.old }
        ensures rounds { OnOk result (Did (λ plant scans. MakesRounds plant scans count)
            self.old self.new) }
        ensures scans { OnOk result (KeepScans self.old self.new) }
        ensures off { OnOk result (Stay IsOffAway self.old self.new) }
    {
        for _ in 0..count {
            self.round()?;
        }
        Ok(())
    }

    /// A repetition: scans, away turns, visits, and so many rounds. The only error is that memory
    /// ran out.
    pub fn repetition(&mut self, rotations: u32) -> Result<(), AllocError>
        requires stand { Stand self.old }
        requires between { AreBetweenScans self.old }
        requires goes_on { have_ended self.old ≡ false }
        ensures did { OnOk result (DidWith rotations IsRepetition self.old self.new) }
        ensures between { OnOk result (AreBetweenScans self.new) }
        ensures less { OnOk result (steps_left self.new < steps_left self.old) }
        ensures off { OnOk result (AllHave IsOffAway self.new) }
    {
        self.scan_all()?;
        self.come_back_all()?;
        self.visit_all()?;
        self.rounds(rotations)
    }

    /// Repetitions until all controllers have ended.
    pub(crate) fn repeat(&mut self, rotations: u32) -> Result<(), AllocError>
        requires stand { Stand self.old }
        requires between { AreBetweenScans self.old }
        requires off { AllHave IsOffAway self.old }
        ensures did { OnOk result (DidWith rotations Repeats self.old self.new) }
        ensures ended { OnOk result (have_ended self.new ≡ true) }
        ensures off { OnOk result (AllHave IsOffAway self.new) }
    {
        while !self.have_ended() {
            self.repetition(rotations)?;
        }
        Ok(())
    }

    /// Rounds until every node is gone, or away without power.
    fn empty_rings(&mut self) -> Result<(), AllocError>
        requires stand { Stand self.old }
        requires off { AllHave IsOffAway self.old }
        ensures did { OnOk result (Did MakesLateRounds self.old self.new) }
        ensures scans { OnOk result (KeepScans self.old self.new) }
        ensures off { OnOk result (AllHave IsOffAway self.new) }
        ensures left { OnOk result (stations_here self.new ≡ 0) }
    {
        while self.here() != 0 {
            self.round()?;
        }
        Ok(())
    }

    /// Rounds until every node is out of the ring, and then the visits. The only error is that
    /// memory ran out.
    pub fn finish(&mut self) -> Result<(), AllocError>
        requires stand { Stand self.old }
        requires off { AllHave IsOffAway self.old }
        ensures did { OnOk result (Did Finishes self.old self.new) }
        ensures scans { OnOk result (KeepScans self.old self.new) }
        ensures off { OnOk result (AllHave IsOffAway self.new) }
        ensures visited { OnOk result (AllHave IsVisited self.new) }
        ensures left { OnOk result (stations_here self.new ≡ 0) }
    {
        self.empty_rings()?;
        self.visit_all()
    }
}
