//! What all workers of a run share.
ghost use Rattle.std.specs.Prelude.{◌≡◌};

use crate::flags::{Flag, Watch};
use gated_sides::Meet;
use plant_types::Plant;
use std::alloc::{AllocError, Global};
use std::sync::Wait;
use std::sync::atomic::{AtomicU64, Ordering};

/// What the workers of a run share: the runtime, the crew, the object that is told where they are,
/// the plant, the allocator, and how many scans each controller makes.
#[derive(Drop)]
pub struct Run<'a, M: Meet, R: Wait> {
    pub rt: &'a R,
    pub crew: &'a Crew,
    pub meet: &'a M,
    pub plant: &'a Plant,
    pub alloc: Global,
    pub scans: u32,
}

impl<'a, M: Meet, R: Wait> Run<'a, M, R> {
    /// What the workers of this crew share.
    pub fn new(
        rt: &'a R,
        crew: &'a Crew,
        meet: &'a M,
        plant: &'a Plant,
        alloc: Global,
        scans: u32,
    ) -> Run<'a, M, R>
        ensures plant { result.plant.now ≡ plant.now }
        ensures scans { result.scans ≡ scans }
    {
        Run {
            rt,
            crew,
            meet,
            plant,
            alloc,
            scans,
        }
    }
}

/// The workers of a run: the flag that tells them that one has given up, and how many have begun.
#[derive(Drop)]
pub struct Crew {
    flag: Flag,
    begun: AtomicU64,
    workers: u64,
}

/// Two workers for each controller, one for each host, and two for each bridge.
fn workers_of(plant: &Plant) -> u64 {
    let controllers = plant.controllers.as_slice().len() as u64;
    let hosts = plant.hosts.as_slice().len() as u64;
    let bridges = plant.bridges.as_slice().len() as u64;
    controllers
        .saturating_add(bridges)
        .saturating_mul(2)
        .saturating_add(hosts)
}

impl Crew {
    /// A crew for a plant, none of whose workers has begun.
    pub fn new(alloc: Global, plant: &Plant) -> Result<Crew, AllocError> {
        let flag = Flag::new(alloc)?;
        Ok(Crew {
            flag,
            begun: AtomicU64::new(0),
            workers: workers_of(plant),
        })
    }

    /// A worker begins, with a watch of its own.
    pub(crate) fn begin(&self) -> Watch<'_> {
        self.begun.fetch_add(1, Ordering::SeqCst);
        self.flag.watch()
    }

    /// All workers have begun.
    pub(crate) fn is_whole(&self) -> bool {
        self.begun.load(Ordering::SeqCst) >= self.workers
    }

    /// Tells all workers that one has given up.
    pub(crate) fn raise(&self) {
        self.flag.raise();
    }
}
