//! The eight operations of an MSTR block.
ghost use Rattle.std.specs.Prelude.{◌≡◌};
ghost use Rattle.mstr_block.specs.Operations.{operation_of, uses_network, moves_registers};
ghost use Rattle.mstr_block.specs.Operations.{reads_statistics, names_node, most_words};

use plant_types::{BLOCK_LIMIT, GLOBAL_LIMIT, STATISTICS_WORDS};

/// What the first register of a control block asks for.
#[derive(Clone, Copy, Drop)]
pub(crate) enum Operation {
    WriteData,
    ReadData,
    LocalStatistics,
    ClearLocal,
    WriteGlobal,
    ReadGlobal,
    RemoteStatistics,
    ClearRemote,
}

/// The most registers of a read or a write: they go as one block.
const DATA_LIMIT: u16 = BLOCK_LIMIT as u16;

impl Operation {
    /// None exactly where the code is not 1 to 8.
    pub fn of_code(code: u16) -> Option<Operation>
        ensures { result ≡ operation_of code }
    {
        match code {
            1 => Some(Operation::WriteData),
            2 => Some(Operation::ReadData),
            3 => Some(Operation::LocalStatistics),
            4 => Some(Operation::ClearLocal),
            5 => Some(Operation::WriteGlobal),
            6 => Some(Operation::ReadGlobal),
            7 => Some(Operation::RemoteStatistics),
            8 => Some(Operation::ClearRemote),
            _ => None,
        }
    }

    /// Whether it asks another node, by one of the four paths.
    pub fn uses_network(self) -> bool
        ensures { result ≡ uses_network self }
    {
        match self {
            Operation::WriteData => true,
            Operation::ReadData => true,
            Operation::RemoteStatistics => true,
            Operation::ClearRemote => true,
            _ => false,
        }
    }

    /// Whether a node is named.
    pub fn names_node(self) -> bool
        ensures { result ≡ names_node self }
    {
        match self {
            Operation::ReadGlobal => true,
            _ => self.uses_network(),
        }
    }

    /// Whether holding registers of the other node are meant.
    pub fn moves_registers(self) -> bool
        ensures { result ≡ moves_registers self }
    {
        match self {
            Operation::WriteData => true,
            Operation::ReadData => true,
            _ => false,
        }
    }

    /// Whether statistics are read.
    pub fn reads_statistics(self) -> bool
        ensures { result ≡ reads_statistics self }
    {
        match self {
            Operation::LocalStatistics => true,
            Operation::RemoteStatistics => true,
            _ => false,
        }
    }

    /// The greatest length; none where no words are moved.
    pub fn most_words(self) -> Option<u16>
        ensures { result ≡ most_words self }
    {
        match self {
            Operation::WriteData => Some(DATA_LIMIT),
            Operation::ReadData => Some(DATA_LIMIT),
            Operation::LocalStatistics => Some(STATISTICS_WORDS),
            Operation::WriteGlobal => Some(GLOBAL_LIMIT),
            Operation::ReadGlobal => Some(GLOBAL_LIMIT),
            Operation::RemoteStatistics => Some(STATISTICS_WORDS),
            _ => None,
        }
    }
}
