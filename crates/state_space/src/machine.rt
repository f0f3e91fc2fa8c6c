//! What a machine is.
ghost use Rattle.std.specs.Prelude.{◌≡◌, ◌<◌, ℕ, Bool, List, OnOk};

use std::alloc::AllocError;

/// A machine whose states have keys, which are lists of words. From each state it takes one of so
/// many moves. What a move does is done in a work of type `W`. This project's own.
pub trait Machine<W> {
    // The works in which this machine can do its moves.
    ghost fits: { Self → W → Type 0 };

    // The keys of the first state.
    ghost starts: { Self → List ℕ → Type 0 };

    // How many moves there are.
    ghost count: { Self → ℕ };

    // A move leads from a key to a key.
    ghost leads: { Self → List ℕ → ℕ → List ℕ → Type 0 };

    // The keys of states that must not be reached.
    ghost bad: { Self → List ℕ → Bool };

    /// Writes the key of the first state.
    fn start(&self, work: &mut W, key: &mut Vec<u16>) -> Result<(), AllocError>
        requires { fits self.now work.old }
        ensures fits { fits self.now work.new }
        ensures key { OnOk result (starts self.now key.new.items) };

    /// How many moves there are.
    fn moves(&self) -> usize
        ensures { result ≡ count self.now };

    /// Writes the key of the state behind a move.
    fn next(
        &self,
        work: &mut W,
        from: &[u16],
        by: usize,
        key: &mut Vec<u16>,
    ) -> Result<(), AllocError>
        requires fits { fits self.now work.old }
        requires by { by < count self.now }
        ensures fits { fits self.now work.new }
        ensures key { OnOk result (leads self.now from.now by key.new.items) };

    /// Whether a state is one that must not be reached.
    fn is_bad(&self, key: &[u16]) -> bool
        ensures { result ≡ bad self.now key.now };
}
