//! The turns of the stations.
ghost use Rattle.std.specs.Prelude.{◌≡◌, ◌==◌, ◌<◌, true, false, length, Some, OnOk};
ghost use Rattle.std.specs.List.{position};
ghost use Rattle.controller_core.specs.Controller.{stepped};
ghost use Rattle.bridge_station.specs.TurnLaws.{is_out_of_ring, leaves_out};
ghost use Rattle.ring_core.specs.Legal.{IsMember};
ghost use Rattle.comm_port.specs.Turns.{IsNoBridge};
ghost use Rattle.whole_scan.specs.Scans.{MadeEvents};
ghost use Rattle.serial_run.specs.Turns.{MakesTurn};
ghost use Rattle.serial_run.specs.Stations.{Did, Stand};
ghost use Rattle.serial_run.specs.Scans.{KeepScans};
ghost use Rattle.serial_run.specs.Held.{HasToken, HeldController, HeldHost, HostStandsBeside};
ghost use Rattle.serial_run.specs.Held.{HeldOn, HostKeepsBeside, IsRingPlace, KeepsBeside};
ghost use Rattle.serial_run.specs.Held.{KnowsLeft};
ghost use Rattle.serial_run.specs.Held.{StandsBeside, VisitedController, is_away, is_visit_due};
ghost use Rattle.serial_run.specs.Held.{CameBack, GainFor, IsOffAway, IsVisited, Stay};
ghost use Rattle.serial_run.specs.Held.{stations_here};

use crate::order::Turn;
use crate::stations::{ControllerStation, HostStation, Stations};
use bridge_station::{
    away_turns_keep_on, host_turns_keep_on, somebody_holds, turns_end_where, turns_keep_on,
    visits_keep_on,
};
use comm_port::TurnEnd;
use controller_core::{Controller, calls_follow, ended_controllers_stay};
use ring_core::{NodeStatus, Ring};
use std::alloc::AllocError;

/// Reserves the memory of a scan, if that was not done yet.
pub(crate) fn reserve(controller: &mut Controller) -> Result<(), AllocError>
    ensures { OnOk result (controller.new ≡ record controller.old { reserved = true }) }
{
    if controller.is_reserved() {
        return Ok(());
    }
    controller.reserve_scan()
}

/// Makes the due step; nothing where the controller has ended.
fn make_step(controller: &mut Controller) -> Result<(), AllocError>
    ensures { OnOk result (MadeEvents (stepped controller.old).history
        controller.old controller.new) }
{
    ended_controllers_stay();
    if controller.has_ended() {
        let _ = controller.history();
        return Ok(());
    }
    reserve(controller)?;
    let _ = controller.step();
    Ok(())
}

/// Whether a turn that ended so left the node out of the ring.
fn leaves_out(end: TurnEnd) -> bool
    ensures { result ≡ leaves_out end }
{
    match end {
        TurnEnd::Passed | TurnEnd::Asking => false,
        TurnEnd::Left | TurnEnd::Away => true,
    }
}

/// One hold turn of a controller's station.
fn hold_controller(station: &mut ControllerStation, ring: &mut Ring) -> Result<(), AllocError>
    requires stands { StandsBeside station.old ring.old }
    requires token { HasToken station.old.worker.node ring.old }
    requires no_bridge { IsNoBridge ring.old.net station.old.worker.node }
    requires keeps { KeepsBeside station.old ring.old }
    requires here { station.old.left ≡ false }
    ensures { OnOk result (HeldController station.old station.new ring.old ring.new) }
{
    turns_keep_on();
    turns_end_where();
    let end = station.worker.hold_turn(&mut station.controller, ring)?;
    let _ = station.controller.history();
    let _ = ring.history();
    station.left = leaves_out(end);
    Ok(())
}

/// One hold turn of a host's station.
fn hold_host(station: &mut HostStation, ring: &mut Ring) -> Result<(), AllocError>
    requires stands { HostStandsBeside station.old ring.old }
    requires token { HasToken station.old.worker.node ring.old }
    requires no_bridge { IsNoBridge ring.old.net station.old.worker.node }
    requires keeps { HostKeepsBeside station.old ring.old }
    requires here { station.old.left ≡ false }
    ensures { OnOk result (HeldHost station.old station.new ring.old ring.new) }
{
    host_turns_keep_on();
    let left = station.worker.hold_turn(&mut station.host, ring)?;
    let _ = ring.history();
    station.left = left;
    Ok(())
}

/// Whether a node is out of the ring: it is gone; or it is away, and this keeps it away.
fn is_out_of_ring(stays: bool, status: NodeStatus) -> bool
    ensures { result ≡ is_out_of_ring stays status }
{
    match status {
        NodeStatus::In | NodeStatus::Asking => false,
        NodeStatus::Away => stays,
        NodeStatus::Gone => true,
    }
}

/// Whether a controller's visit is due: its node is gone, or it is away with no scan left that
/// could bring power back; and it has calls that were not collected.
fn is_visit_due(station: &ControllerStation, ring: &Ring) -> bool
    requires member { IsMember ring.now.net station.now.worker.node }
    requires node { station.now.node ≡ station.now.worker.node }
    ensures { result ≡ is_visit_due ring.now station.now }
{
    let controller = &station.controller;
    let stays = controller.has_ended() && controller.is_off();
    is_out_of_ring(stays, ring.status(station.node)) && controller.has_started()
}

/// Whether a node left as its power failed, and has not asked to come in since.
fn is_away(node: u8, ring: &Ring) -> bool
    requires { IsMember ring.now.net node }
    ensures { result ≡ is_away ring.now node }
{
    matches!(ring.status(node), NodeStatus::Away)
}

/// The turn of a controller's station that is away.
fn make_away_turn(station: &mut ControllerStation, ring: &mut Ring) -> Result<(), AllocError>
    requires stands { StandsBeside station.old ring.old }
    requires left { KnowsLeft station.old ring.old }
    requires keeps { KeepsBeside station.old ring.old }
    requires node { station.old.node ≡ station.old.worker.node }
    requires away { is_away ring.old station.old.worker.node ≡ true }
    ensures { OnOk result (CameBack station.old station.new ring.old ring.new) }
{
    away_turns_keep_on();
    turns_end_where();
    let joined = station.worker.away_turn(&mut station.controller, ring)?;
    let _ = station.controller.history();
    let _ = ring.history();
    station.left = !joined;
    Ok(())
}

/// The turn of a controller's station, where it is away.
fn come_back(station: &mut ControllerStation, ring: &mut Ring) -> Result<(), AllocError>
    requires stands { StandsBeside station.old ring.old }
    requires left { KnowsLeft station.old ring.old }
    requires keeps { KeepsBeside station.old ring.old }
    requires node { station.old.node ≡ station.old.worker.node }
    ensures { OnOk result (CameBack station.old station.new ring.old ring.new) }
{
    if is_away(station.node, ring) {
        return make_away_turn(station, ring);
    }
    let _ = station.controller.history();
    let _ = ring.history();
    Ok(())
}

/// The visit of a controller's station.
fn make_visit(station: &mut ControllerStation, ring: &mut Ring) -> Result<(), AllocError>
    requires stands { StandsBeside station.old ring.old }
    requires left { KnowsLeft station.old ring.old }
    requires keeps { KeepsBeside station.old ring.old }
    requires node { station.old.node ≡ station.old.worker.node }
    requires due { is_visit_due ring.old station.old ≡ true }
    ensures { OnOk result (VisitedController station.old station.new ring.old ring.new) }
{
    visits_keep_on();
    calls_follow();
    station.worker.visit_end(&mut station.controller, ring)?;
    let _ = station.controller.history();
    let _ = ring.history();
    Ok(())
}

/// The visit of a controller's station, where it is due.
fn visit_controller(station: &mut ControllerStation, ring: &mut Ring) -> Result<(), AllocError>
    requires stands { StandsBeside station.old ring.old }
    requires left { KnowsLeft station.old ring.old }
    requires keeps { KeepsBeside station.old ring.old }
    requires node { station.old.node ≡ station.old.worker.node }
    ensures { OnOk result (VisitedController station.old station.new ring.old ring.new) }
{
    if is_visit_due(station, ring) {
        return make_visit(station, ring);
    }
    let _ = station.controller.history();
    let _ = ring.history();
    Ok(())
}

impl Stations {
    fn step(&mut self, node: u8) -> Result<(), AllocError>
        requires { Stand self.old }
        ensures { OnOk result (Did (λ plant scans. MakesTurn plant scans (Turn.Step node))
            self.old self.new) }
    {
        match self.controller_at(node) {
            Some(at) => make_step(&mut self.controllers[at].controller),
            None => Ok(()),
        }
    }

    /// The station or the bridge of the node that holds the token of a network makes its hold turn;
    /// the ring of the network stands at a place.
    fn hold_at(&mut self, network: u8, place: usize) -> Result<(), AllocError>
        requires stand { Stand self.old }
        requires place { position (λ station. station.network == network) self.old.rings.items
            ≡ Some place }
        ensures { OnOk result (HeldOn network self.old self.new) }
    {
        somebody_holds();
        let holder = self.rings[place].ring.holder();
        if let Some(at) = self.controller_at(holder) {
            return hold_controller(&mut self.controllers[at], &mut self.rings[place].ring);
        }
        if let Some(at) = self.host_at(holder) {
            return hold_host(&mut self.hosts[at], &mut self.rings[place].ring);
        }
        if let Some(at) = self.bridge_at(holder) {
            let station = &mut self.bridges[at].station;
            return station.hold(holder, &mut self.rings[place].ring);
        }
        Ok(())
    }

    /// The station or the bridge of the node that holds the token of a network makes its hold turn,
    /// where there is that network.
    pub(crate) fn hold(&mut self, network: u8) -> Result<(), AllocError>
        requires { Stand self.old }
        ensures { OnOk result (HeldOn network self.old self.new) }
    {
        match self.ring_at(network) {
            Some(place) => self.hold_at(network, place),
            None => Ok(()),
        }
    }

    /// The place of the ring of a controller's network.
    fn ring_place(&self, at: usize) -> usize
        requires stand { Stand self.now }
        requires at { at < length self.now.controllers.items }
        ensures is { IsRingPlace self.now at result }
        ensures place { result < length self.now.rings.items }
    {
        match self.ring_at(self.controllers[at].network) {
            Some(place) => place,
            None => 0,
        }
    }

    /// The controller of a node makes its visit, where that is due.
    pub(crate) fn visit(&mut self, node: u8) -> Result<(), AllocError>
        requires { Stand self.old }
        ensures visited { OnOk result (Did (λ plant scans. MakesTurn plant scans (Turn.Visit node))
            self.old self.new) }
        ensures scans { OnOk result (KeepScans self.old self.new) }
        ensures off { OnOk result (Stay IsOffAway self.old self.new) }
        ensures gain { OnOk result (GainFor IsVisited node self.old self.new) }
        ensures here { OnOk result (stations_here self.new ≡ stations_here self.old) }
    {
        match self.controller_at(node) {
            Some(at) => {
                let place = self.ring_place(at);
                visit_controller(&mut self.controllers[at], &mut self.rings[place].ring)
            }
            None => Ok(()),
        }
    }

    /// The controller of a node asks to come in again, where it is away and has power.
    pub(crate) fn away(&mut self, node: u8) -> Result<(), AllocError>
        requires { Stand self.old }
        ensures did { OnOk result (Did (λ plant scans. MakesTurn plant scans (Turn.Away node))
            self.old self.new) }
        ensures scans { OnOk result (KeepScans self.old self.new) }
        ensures gain { OnOk result (GainFor IsOffAway node self.old self.new) }
    {
        match self.controller_at(node) {
            Some(at) => {
                let place = self.ring_place(at);
                come_back(&mut self.controllers[at], &mut self.rings[place].ring)
            }
            None => Ok(()),
        }
    }

    /// One turn.
    pub(crate) fn turn(&mut self, turn: Turn) -> Result<(), AllocError>
        requires { Stand self.old }
        ensures { OnOk result (Did (λ plant scans. MakesTurn plant scans turn) self.old self.new) }
    {
        match turn {
            Turn::Step(node) => self.step(node),
            Turn::Hold(network) => self.hold(network),
            Turn::Visit(node) => self.visit(node),
            Turn::Away(node) => self.away(node),
        }
    }
}
