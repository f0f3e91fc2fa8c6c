//! What all stations of a plant, its bridges and its rings noted.
use bridge_relay::BridgeEntry;
use controller_core::Entry;
use host_port::HostEntry;
use plant_types::{Copied, List};
use ring_core::RingEntry;
use std::alloc::{AllocError, Global};

/// The history of a controller, under its node.
pub struct ControllerLog {
    pub node: u8,
    pub entries: List<Entry>,
}

impl Drop for ControllerLog {
    fn drop(self) {
        let ControllerLog {
            node: _,
            entries: _,
        } = self;
    }
}

/// The history of a host, under its node.
pub struct HostLog {
    pub node: u8,
    pub entries: List<HostEntry>,
}

impl Drop for HostLog {
    fn drop(self) {
        let HostLog {
            node: _,
            entries: _,
        } = self;
    }
}

/// The history of a bridge, under the addresses of its two ends.
pub struct BridgeLog {
    pub left: u8,
    pub right: u8,
    pub entries: List<BridgeEntry>,
}

impl Drop for BridgeLog {
    fn drop(self) {
        let BridgeLog {
            left: _,
            right: _,
            entries: _,
        } = self;
    }
}

/// The history of a ring, under the number of its network.
pub struct RingLog {
    pub network: u8,
    pub entries: List<RingEntry>,
}

impl Drop for RingLog {
    fn drop(self) {
        let RingLog {
            network: _,
            entries: _,
        } = self;
    }
}

/// The joint history of a plant: one list per station, per bridge and per ring. This project's own.
pub struct Joint {
    pub controllers: List<ControllerLog>,
    pub hosts: List<HostLog>,
    pub bridges: List<BridgeLog>,
    pub rings: List<RingLog>,
}

impl Drop for Joint {
    fn drop(self) {
        let Joint {
            controllers: _,
            hosts: _,
            bridges: _,
            rings: _,
        } = self;
    }
}

impl Copied for ControllerLog {
    fn copied(&self, alloc: Global) -> Result<Self, AllocError> {
        Ok(ControllerLog {
            node: self.node,
            entries: self.entries.copied(alloc)?,
        })
    }
}

impl Copied for HostLog {
    fn copied(&self, alloc: Global) -> Result<Self, AllocError> {
        Ok(HostLog {
            node: self.node,
            entries: self.entries.copied(alloc)?,
        })
    }
}

impl Copied for BridgeLog {
    fn copied(&self, alloc: Global) -> Result<Self, AllocError> {
        Ok(BridgeLog {
            left: self.left,
            right: self.right,
            entries: self.entries.copied(alloc)?,
        })
    }
}

impl Copied for RingLog {
    fn copied(&self, alloc: Global) -> Result<Self, AllocError> {
        Ok(RingLog {
            network: self.network,
            entries: self.entries.copied(alloc)?,
        })
    }
}

impl Copied for Joint {
    fn copied(&self, alloc: Global) -> Result<Self, AllocError> {
        Ok(Joint {
            controllers: self.controllers.copied(alloc)?,
            hosts: self.hosts.copied(alloc)?,
            bridges: self.bridges.copied(alloc)?,
            rings: self.rings.copied(alloc)?,
        })
    }
}
