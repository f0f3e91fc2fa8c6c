//! What a solve carries from one network to the next.
use crate::edges::Edges;
use crate::program::Program;
use mstr_block::MstrBank;
use timer_ops::Clock;

/// What is lent to each cell beside the references: the clock of the scan, the edge bits of all
/// networks, the MSTR blocks, and the networks left to the watchdog.
pub(crate) struct Scan {
    pub clock: Clock,
    pub edges: Edges,
    pub bank: MstrBank,
    pub left: u32,
}

impl Drop for Scan {
    fn drop(self) {
        let Scan {
            clock: _,
            edges: _,
            bank: _,
            left: _,
        } = self;
    }
}

/// What is lent to each cell and stays as it is: the program, and the discretes as they stood when
/// the last scan with power ended or failed.
#[derive(Drop)]
pub(crate) struct Lent<'a, P> {
    pub program: &'a Program,
    pub past: &'a P,
}
