//! The plan of a plant.
ghost use Rattle.std.specs.Prelude.{◌≡◌, ◌≤◌, Contains, length, option_map};
ghost use Rattle.std.specs.List.{find};
ghost use Rattle.plant_types.specs.Plans.{first_net, has_member, net_of};

use crate::drops::IoDrop;
use crate::list::List;
use crate::net::{BridgePlan, HostPlan, NetPlan};
use crate::network::Segment;
use crate::reference::Ref;

/// The most controllers of a plant. This project's own.
pub const CONTROLLER_LIMIT: usize = 16;

/// The most hosts of a plant. This project's own.
pub const HOST_LIMIT: usize = 16;

/// The most ticks of 10 ms by which the clock goes on at a scan. This project's own.
pub const SCAN_TIME_LIMIT: u32 = 1000;

/// The most networks that a scan may begin. This project's own.
pub const WATCHDOG_LIMIT: u32 = 10_000;

/// The most scans of a run. This project's own.
pub const MOST_SCANS: u32 = 2000;

/// A row of a controller's order of solve: what one step of its scan reads, solves and writes.
/// Its form is this project's own.
#[derive(Clone, Copy, Debug, PartialEq, Eq)]
pub struct OrderRow {
    /// The segment that is solved, from 1.
    pub segment: u16,
    /// The 0x or 1x reference that has to be on for the segment to be solved.
    pub control: Option<Ref>,
    /// The number of the drop whose inputs are read before.
    pub input: Option<u8>,
    /// The number of the drop whose outputs are written afterwards.
    pub output: Option<u8>,
}

/// A power failure of a controller, and the scans after it in which the controller is dark. Its form
/// is this project's own.
#[derive(Clone, Copy, Debug, PartialEq, Eq)]
pub struct PowerRow {
    /// The scan in which power fails, 1 to 2000.
    pub scan: u32,
    /// The order row behind whose solve it fails, from 1 to the number of order rows; 0 where it
    /// fails right behind Begin.
    pub row: u16,
    /// How many scans after it are dark, 0 to 2000.
    pub dark: u32,
}

/// One controller: how many references it has, what its panel shows and what it solves.
pub struct ControllerPlan {
    /// Its address on the network, 1 to 64.
    pub node: u8,
    /// The number of its network; 0 in a plant file of version 1.
    pub network: u8,
    /// A multiple of 16, 0 to 9984.
    pub coils: u16,
    /// A multiple of 16, 0 to 9984.
    pub inputs: u16,
    /// 0 to 9984.
    pub input_registers: u16,
    /// 0 to 9984.
    pub registers: u16,
    /// The references that a panel line shows, in its order.
    pub panel: List<Ref>,
    /// The order of solve, up to 32 rows.
    pub orders: List<OrderRow>,
    /// Its power failures, up to 32, each in a scan above the last dark one of the row before.
    pub power: List<PowerRow>,
    /// Its drops of input and output modules, up to 32.
    pub drops: List<IoDrop>,
    /// Up to 32 segments; the last one has the subroutines where it has a LAB.
    pub segments: List<Segment>,
}

impl Drop for ControllerPlan {
    fn drop(self) {
        let ControllerPlan {
            node: _,
            network: _,
            coils: _,
            inputs: _,
            input_registers: _,
            registers: _,
            panel: _,
            orders: _,
            power: _,
            drops: _,
            segments: _,
        } = self;
    }
}

/// A plant: its networks by rising number, its controllers and hosts by rising node, and its bridges
/// by rising left address.
pub struct Plant {
    /// How far the clock goes on at each scan, 1 to 1000 ticks of 10 ms.
    pub scan_time: u32,
    /// How many networks a scan may begin, 1 to 10,000.
    pub watchdog: u32,
    pub nets: List<NetPlan>,
    pub controllers: List<ControllerPlan>,
    pub hosts: List<HostPlan>,
    pub bridges: List<BridgePlan>,
}

impl Drop for Plant {
    fn drop(self) {
        let Plant {
            scan_time: _,
            watchdog: _,
            nets: _,
            controllers: _,
            hosts: _,
            bridges: _,
        } = self;
    }
}

/// Whether a node is a member of a network.
fn has_member(net: &NetPlan, node: u8) -> bool
    ensures { result ≡ has_member node net.now }
{
    net.members.as_slice().iter().any(|member| *member == node)
}

impl Plant {
    /// The network with the least number.
    pub fn first_net(&self) -> &NetPlan
        requires some { 1 ≤ length self.now.nets }
        ensures { result.now ≡ first_net self.now }
    {
        &self.nets.as_slice()[0]
    }

    /// The network of which a node is a member, if there is one.
    pub fn net_of(&self, node: u8) -> Option<&NetPlan>
        ensures { option_map (λ net. net.now) result ≡ find (has_member node) self.now.nets }
    {
        self.nets
            .as_slice()
            .iter()
            .find(|net| has_member(net, node))
    }

    /// The network of a node that is a member of one.
    pub fn own_net(&self, node: u8) -> &NetPlan
        requires member { Contains (net_of self.now node).members node }
        ensures { result.now ≡ net_of self.now node }
    {
        match self.net_of(node) {
            Some(net) => net,
            None => unreachable!(),
        }
    }
}
