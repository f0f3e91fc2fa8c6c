//! Why bytes were not read as a journal.
use thiserror::Error;

/// Why no joint history was read.
#[derive(Clone, Copy, Debug, PartialEq, Eq, Error)]
pub enum JournalFault {
    /// The bytes are no journal; the number of the first wrong line, from 1 on.
    #[error("line {0} is not that of a journal")]
    Text(u32),
    #[error("out of memory")]
    NoMemory,
}
