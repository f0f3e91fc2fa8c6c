//! Bytes that come in and go out, with the faults of the outside counted.
#![tactic(auto)]

ghost use Rattle.std.specs.Prelude.{Some, codes};

use std::error::Error;
use std::fmt;

mod calls;
mod memory;
mod reading;
mod real;
mod writing;

pub use memory::{MemSink, MemSource};
pub use reading::{ReadEnd, Source, read_all};
pub use real::{StdSink, StdSource};
pub use writing::{Sink, write_all};

/// The outside failed.
#[derive(Clone, Copy, Debug, PartialEq, Eq)]
pub struct Failed;

impl fmt::Display for Failed {
    ghost output = { λ _. Some (codes "the outside failed") };

    fn fmt<W: fmt::Write>(&self, f: &mut fmt::Formatter<W>) -> fmt::Result {
        f.write_str("the outside failed")
    }
}

impl Error for Failed {}
