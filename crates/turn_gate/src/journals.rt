//! What a gate keeps.
ghost use Rattle.std.specs.Prelude.{ℕ, List};

/// A value whose meaning is a list of entries and a fixed part. Each entry names its maker by a
/// number.
pub trait Journal: Drop {
    /// What the value's list has.
    type Entry;

    /// What no holder may change.
    type Fixed;

    /// The entries, the oldest first.
    ghost entries: { Self → List Self.Entry };

    /// The part that stays as it is in the opening value.
    ghost fixed: { Self → Self.Fixed };

    /// The number of the pass that made an entry.
    ghost maker: { Self.Entry → ℕ };
}
