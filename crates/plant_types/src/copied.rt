//! Copies of values that own memory.
ghost use Rattle.std.specs.Prelude.{◌≡◌, IfOk};

use crate::drops::{IoDrop, Module, ModuleKind, ScriptRow};
use crate::element::{Element, MathOp, MatrixOp, MoveOp, Operand, Unit};
use crate::fault::{Part, Place, PlantFault};
use crate::list::List;
use crate::net::{BridgePlan, Fate, HostAsk, HostPlan, NetPlan};
use crate::network::{Cell, Network, Segment, Short};
use crate::plan::{ControllerPlan, OrderRow, Plant, PowerRow};
use crate::power::NodePower;
use crate::reference::{Ref, RefKind};
use crate::route::Route;
use crate::words::{Block, Pdu, Words};
use std::alloc::{AllocError, Global};

/// A value that can be copied where memory suffices. This project's own.
pub trait Copied {
    fn copied(&self, alloc: Global) -> Result<Self, AllocError>
        ensures { IfOk result (λ copy. copy ≡ self.now) };
}

impl Copied for bool {
    fn copied(&self, _: Global) -> Result<Self, AllocError> {
        Ok(*self)
    }
}

impl Copied for u8 {
    fn copied(&self, _: Global) -> Result<Self, AllocError> {
        Ok(*self)
    }
}

impl Copied for u16 {
    fn copied(&self, _: Global) -> Result<Self, AllocError> {
        Ok(*self)
    }
}

impl Copied for RefKind {
    fn copied(&self, _: Global) -> Result<Self, AllocError> {
        Ok(*self)
    }
}

impl Copied for Ref {
    fn copied(&self, _: Global) -> Result<Self, AllocError> {
        Ok(*self)
    }
}

impl Copied for Operand {
    fn copied(&self, _: Global) -> Result<Self, AllocError> {
        Ok(*self)
    }
}

impl Copied for Unit {
    fn copied(&self, _: Global) -> Result<Self, AllocError> {
        Ok(*self)
    }
}

impl Copied for MathOp {
    fn copied(&self, _: Global) -> Result<Self, AllocError> {
        Ok(*self)
    }
}

impl Copied for MoveOp {
    fn copied(&self, _: Global) -> Result<Self, AllocError> {
        Ok(*self)
    }
}

impl Copied for MatrixOp {
    fn copied(&self, _: Global) -> Result<Self, AllocError> {
        Ok(*self)
    }
}

impl Copied for Element {
    fn copied(&self, _: Global) -> Result<Self, AllocError> {
        Ok(*self)
    }
}

impl Copied for Cell {
    fn copied(&self, _: Global) -> Result<Self, AllocError> {
        Ok(*self)
    }
}

impl Copied for Short {
    fn copied(&self, _: Global) -> Result<Self, AllocError> {
        Ok(*self)
    }
}

impl Copied for OrderRow {
    fn copied(&self, _: Global) -> Result<Self, AllocError> {
        Ok(*self)
    }
}

impl Copied for PowerRow {
    fn copied(&self, _: Global) -> Result<Self, AllocError> {
        Ok(*self)
    }
}

impl Copied for ModuleKind {
    fn copied(&self, _: Global) -> Result<Self, AllocError> {
        Ok(*self)
    }
}

impl Copied for Module {
    fn copied(&self, _: Global) -> Result<Self, AllocError> {
        Ok(*self)
    }
}

impl Copied for Fate {
    fn copied(&self, _: Global) -> Result<Self, AllocError> {
        Ok(*self)
    }
}

impl Copied for NodePower {
    fn copied(&self, _: Global) -> Result<Self, AllocError> {
        Ok(*self)
    }
}

impl Copied for BridgePlan {
    fn copied(&self, _: Global) -> Result<Self, AllocError> {
        Ok(*self)
    }
}

impl Copied for Route {
    fn copied(&self, _: Global) -> Result<Self, AllocError> {
        Ok(*self)
    }
}

impl Copied for PlantFault {
    fn copied(&self, _: Global) -> Result<Self, AllocError> {
        Ok(*self)
    }
}

impl Copied for Part {
    fn copied(&self, _: Global) -> Result<Self, AllocError> {
        Ok(*self)
    }
}

impl Copied for Place {
    fn copied(&self, _: Global) -> Result<Self, AllocError> {
        Ok(*self)
    }
}

impl<T: Copied + Drop> Copied for List<T> {
    fn copied(&self, alloc: Global) -> Result<Self, AllocError> {
        let mut copy = List::new(alloc);
        for item in self.as_slice() {
            copy.push(item.copied(alloc)?)?;
        }
        Ok(copy)
    }
}

/// Two lists, where memory suffices for both.
fn both_copied<A: Copied + Drop, B: Copied + Drop>(
    alloc: Global,
    one: &List<A>,
    other: &List<B>,
) -> Result<(List<A>, List<B>), AllocError>
    ensures { IfOk result (λ both. both ≡ (one.now, other.now)) }
{
    Ok((one.copied(alloc)?, other.copied(alloc)?))
}

impl Copied for Words {
    fn copied(&self, alloc: Global) -> Result<Self, AllocError> {
        Words::of(alloc, self.words())
    }
}

impl Copied for Pdu {
    fn copied(&self, alloc: Global) -> Result<Self, AllocError> {
        self.copy_of(alloc)
    }
}

impl Copied for Block {
    fn copied(&self, _: Global) -> Result<Self, AllocError> {
        Ok(Block::of(self.words()))
    }
}

impl Copied for Network {
    fn copied(&self, alloc: Global) -> Result<Self, AllocError> {
        Ok(Network {
            cells: self.cells.copied(alloc)?,
            shorts: self.shorts.copied(alloc)?,
        })
    }
}

impl Copied for Segment {
    fn copied(&self, alloc: Global) -> Result<Self, AllocError> {
        Ok(Segment {
            networks: self.networks.copied(alloc)?,
        })
    }
}

impl Copied for ScriptRow {
    fn copied(&self, alloc: Global) -> Result<Self, AllocError> {
        match self {
            ScriptRow::Silent => Ok(ScriptRow::Silent),
            ScriptRow::Row(words) => Ok(ScriptRow::Row(words.copied(alloc)?)),
        }
    }
}

impl Copied for IoDrop {
    fn copied(&self, alloc: Global) -> Result<Self, AllocError> {
        Ok(IoDrop {
            number: self.number,
            modules: self.modules.copied(alloc)?,
            script: self.script.copied(alloc)?,
        })
    }
}

impl Copied for HostAsk {
    fn copied(&self, alloc: Global) -> Result<Self, AllocError> {
        Ok(HostAsk {
            hold: self.hold,
            route: self.route,
            pdu: self.pdu.copied(alloc)?,
        })
    }
}

impl Copied for HostPlan {
    fn copied(&self, alloc: Global) -> Result<Self, AllocError> {
        Ok(HostPlan {
            node: self.node,
            network: self.network,
            requests: self.requests.copied(alloc)?,
        })
    }
}

impl Copied for NetPlan {
    fn copied(&self, alloc: Global) -> Result<Self, AllocError> {
        let (members, bridges) = both_copied(alloc, &self.members, &self.bridges)?;
        Ok(NetPlan {
            number: self.number,
            members,
            bridges,
            fates: self.fates.copied(alloc)?,
            answer: self.answer,
            rotations: self.rotations,
            rounds: self.rounds,
            holds: self.holds,
        })
    }
}

impl Copied for ControllerPlan {
    fn copied(&self, alloc: Global) -> Result<Self, AllocError> {
        let (panel, orders) = both_copied(alloc, &self.panel, &self.orders)?;
        let (drops, segments) = both_copied(alloc, &self.drops, &self.segments)?;
        let power = self.power.copied(alloc)?;
        Ok(ControllerPlan {
            node: self.node,
            network: self.network,
            coils: self.coils,
            inputs: self.inputs,
            input_registers: self.input_registers,
            registers: self.registers,
            panel,
            orders,
            power,
            drops,
            segments,
        })
    }
}

impl Copied for Plant {
    fn copied(&self, alloc: Global) -> Result<Self, AllocError> {
        Ok(Plant {
            scan_time: self.scan_time,
            watchdog: self.watchdog,
            nets: self.nets.copied(alloc)?,
            controllers: self.controllers.copied(alloc)?,
            hosts: self.hosts.copied(alloc)?,
            bridges: self.bridges.copied(alloc)?,
        })
    }
}
