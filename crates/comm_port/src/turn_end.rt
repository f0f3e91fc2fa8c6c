//! How a controller's hold of the token ends.

/// What a controller's node did last with the token. This project's own.
#[derive(Clone, Copy, Debug, Drop, PartialEq, Eq)]
pub enum TurnEnd {
    /// It passed the token on.
    Passed,
    /// It left for good.
    Left,
    /// It left because power had failed, and there is none.
    Away,
    /// It left because power had failed, and asked at once to come in again.
    Asking,
}
