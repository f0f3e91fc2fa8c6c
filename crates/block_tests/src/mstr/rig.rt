//! A bank with its registers, as a controller has them.
use crate::rows::{get, has_run, register, set};
use mstr_block::{CallId, MstrBank, MstrResult};
use plant_types::{Block, MapRam};
use std::alloc::{AllocError, Global};
use std::process::Abort;

// The power of nodes, as bits.
pub(crate) const ENABLE: u8 = 1;

pub(crate) const ABORT: u8 = 2;

pub(crate) const ACTIVE: u8 = 1;

pub(crate) const ERROR: u8 = 2;

pub(crate) const SUCCESS: u8 = 4;

/// The own address.
pub(crate) const OWN: u8 = 2;

/// Where a block stands: the numbers of the first register of its control block and of its data
/// area, and the registers of the area.
#[derive(Clone, Copy)]
pub(crate) struct Stand {
    pub control: u16,
    pub area: u16,
    pub room: u16,
}

/// A control block in 40001 and an area of ten registers in 40011.
pub(crate) const FIRST: Stand = Stand {
    control: 1,
    area: 11,
    room: 10,
};

/// A second control block and area.
pub(crate) const SECOND: Stand = Stand {
    control: 21,
    area: 31,
    room: 10,
};

/// A control block that reads two registers of node 5.
pub(crate) const READ: [u16; 9] = [2, 9, 2, 1, 5, 0, 0, 0, 0];

/// Blocks and the registers 40001 to 40060.
#[derive(Drop)]
pub(crate) struct Rig {
    pub bank: MstrBank,
    pub ram: MapRam,
}

pub(crate) fn call_id(path: u8, seq: u32) -> CallId {
    CallId {
        node: OWN,
        path,
        seq,
    }
}

impl Rig {
    /// As many blocks of a station whose routes may lead over bridges or not.
    pub fn new(alloc: Global, blocks: u16, routed: bool) -> Result<Rig, AllocError> {
        Ok(Rig {
            bank: MstrBank::new(alloc, OWN, blocks, routed)?,
            ram: MapRam::new(alloc, 0, 0, 0, 60)?,
        })
    }

    /// Three blocks; the own path has had its last number, and path 1 all but the last.
    pub fn late(alloc: Global) -> Result<Rig, AllocError> {
        let numbers = [u32::MAX, u32::MAX - 1, 0, 0, 0];
        Ok(Rig {
            bank: MstrBank::with_numbers(alloc, OWN, 3, false, numbers)?,
            ram: MapRam::new(alloc, 0, 0, 0, 60)?,
        })
    }

    pub fn get(&self, rt: &impl Abort, number: u16) -> u16 {
        get(rt, &self.ram, number)
    }

    /// Sets registers from one on.
    pub fn fill(&mut self, rt: &impl Abort, number: u16, words: &[u16]) {
        for (i, word) in words.iter().enumerate() {
            assert!(rt; i < 60 && number < 60);
            set(rt, &mut self.ram, number + i as u16, *word);
        }
    }

    /// Solves a block.
    pub fn solve(&mut self, rt: &impl Abort, block: u16, stand: Stand, inputs: u8) -> u8 {
        let control = register(stand.control);
        let area = register(stand.area);
        assert!(rt; self.bank.has(block));
        assert!(rt; has_run(&self.ram, control, 9));
        assert!(rt; has_run(&self.ram, area, stand.room));
        self.bank
            .solve(block, control, area, stand.room, inputs, &mut self.ram)
    }

    /// Ends a call that was taken.
    pub fn finish(&mut self, rt: &impl Abort, id: CallId, outcome: MstrResult) {
        assert!(rt; self.bank.is_out(id));
        self.bank.finish(id, outcome);
    }

    /// Ends a call that was taken with these words, at most 100.
    pub fn succeed(&mut self, rt: &impl Abort, id: CallId, words: &[u16]) {
        assert!(rt; words.len() <= 100);
        self.finish(rt, id, MstrResult::Good(Block::of(words)));
    }

    /// Takes the next started call, and answers its name; all zeros where there is none.
    pub fn take(&mut self) -> CallId {
        match self.bank.take_started() {
            Some(call) => call.id,
            None => CallId {
                node: 0,
                path: 0,
                seq: 0,
            },
        }
    }
}
