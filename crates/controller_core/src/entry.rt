//! The entries of a history, and what a step answers.
ghost use Rattle.std.specs.Prelude.{◌≡◌};
ghost use Rattle.controller_core.specs.Event.{maker_of, step_of};

use crate::call::Call;
use mstr_block::{CallId, MstrResult};
use plant_types::{Block, List, Pdu};
use scan_order::ScanStep;

/// One event of a controller; rows of its order of solve count from 1. This project's own.
pub enum Entry {
    /// A scan begins.
    Begin,
    /// A row's input drop was read.
    Input(u16),
    /// A row's segment was solved, or skipped where its control is off.
    Solve(u16),
    /// A row's output drop was given these words.
    Output {
        row: u16,
        words: Block,
    },
    /// A scan ended.
    End,
    /// Power failed, which ended the scan.
    Fail,
    /// A scan went by without power.
    Dark,
    /// The calls that its MSTR blocks had started were handed on, in the order of the blocks.
    Collect(List<Call>),
    /// A request of another node was answered; it is named by who asked.
    Peer {
        id: CallId,
        request: Pdu,
        reply: Pdu,
    },
    /// A request of another node came where there was no power, and has no reply.
    Off {
        id: CallId,
        request: Pdu,
    },
    /// A call that was handed on came to its result.
    Finish {
        id: CallId,
        result: MstrResult,
    },
}

impl Drop for Entry {
    fn drop(self) {
        match self {
            Entry::Begin
            | Entry::Input(_)
            | Entry::Solve(_)
            | Entry::Output { row: _, words: _ }
            | Entry::End
            | Entry::Fail
            | Entry::Dark
            | Entry::Collect(_)
            | Entry::Peer {
                id: _,
                request: _,
                reply: _,
            }
            | Entry::Off { id: _, request: _ }
            | Entry::Finish { id: _, result: _ } => {}
        }
    }
}

/// Who makes events of a controller. This project's own.
#[derive(Clone, Copy, Debug, PartialEq, Eq)]
pub enum Maker {
    /// The scan of its order of solve.
    Scan,
    /// The communication with other nodes.
    Communication,
}

impl Entry {
    /// The step of the scan that it is; none of what the communication does.
    pub fn step(&self) -> Option<ScanStep>
        ensures { result ≡ step_of self.now }
    {
        match self {
            Entry::Begin => Some(ScanStep::Begin),
            Entry::Input(row) => Some(ScanStep::In(*row)),
            Entry::Solve(row) => Some(ScanStep::Solve(*row)),
            Entry::Output { row, .. } => Some(ScanStep::Out(*row)),
            Entry::End => Some(ScanStep::End),
            Entry::Fail => Some(ScanStep::Fail),
            Entry::Dark => Some(ScanStep::Dark),
            Entry::Collect(_) | Entry::Peer { .. } | Entry::Off { .. } | Entry::Finish { .. } =>
                None,
        }
    }

    /// Who made it.
    pub fn maker(&self) -> Maker
        ensures { result ≡ maker_of self.now }
    {
        match self {
            Entry::Begin | Entry::Input(_) | Entry::Solve(_) => Maker::Scan,
            Entry::Output { .. } | Entry::End | Entry::Fail | Entry::Dark => Maker::Scan,
            Entry::Collect(_) | Entry::Finish { .. } => Maker::Communication,
            Entry::Peer { .. } | Entry::Off { .. } => Maker::Communication,
        }
    }
}

/// How a step ended.
#[derive(Clone, Copy, Debug, PartialEq, Eq)]
pub enum StepEnd {
    /// This event was made.
    Did(ScanStep),
    /// All scans are gone, and no event was made.
    Ended,
    /// The controller had stopped with this code, and no event was made.
    Stopped(u16),
}
