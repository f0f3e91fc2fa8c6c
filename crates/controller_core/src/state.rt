//! All of a controller's state, lent to be read.
use ladder_solver::{Clock, Ladder};
use mstr_block::MstrBank;
use state_ram::PackedRam;

/// What a controller's state consists of. This project's own.
#[derive(Clone, Copy)]
pub struct StateView<'a> {
    /// The references.
    pub ram: &'a PackedRam,
    /// The discretes as the last scan ended or failed.
    pub past: &'a PackedRam,
    /// The ladder with the edge bits of its counters.
    pub ladder: &'a Ladder,
    /// The MSTR blocks.
    pub bank: &'a MstrBank,
    pub clock: Clock,
    /// The networks that are left to the watchdog.
    pub left: u32,
    /// How many input exchanges each drop had, by its number from 1.
    pub exchanges: &'a [u32],
    /// How many scans are gone.
    pub gone: u32,
    /// The code with which the controller stopped; 0 while it goes on.
    pub stop: u16,
    /// Whether there is power.
    pub powered: bool,
    /// How often power failed.
    pub failures: u32,
}
