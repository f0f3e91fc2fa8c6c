//! The laws, in their order.

/// A law between a station's list and its node's entries on the ring.
#[derive(Clone, Copy, Debug, Drop, PartialEq, Eq)]
pub enum Law {
    /// What it asked is what its calls ask.
    Asks,
    /// What it answered is what it took.
    Answers,
    /// Its replies are its answers.
    Replies,
    /// What ended is what came of it.
    Ends,
    /// It went down no oftener than its power failed.
    Downs,
}
