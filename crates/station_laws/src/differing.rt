//! Where two lists differ.
ghost use Rattle.std.specs.Prelude.{◌≡◌, ◌↔◌, IsTrue};
ghost use Rattle.station_laws.specs.Comparing.{Compared};

/// What can be compared.
pub(crate) trait Same {
    /// Whether two are one.
    fn is_same(&self, other: &Self) -> bool
        ensures { IsTrue result ↔ (self.now ≡ other.now) };
}

/// The first place, counted from 0, at which two lists differ.
pub(crate) fn first_difference<T: Same>(one: &[T], other: &[T]) -> Option<usize>
    ensures { Compared one.now other.now result }
{
    for place in 0..one.len() {
        if place == other.len() {
            return Some(place);
        }
        if !one[place].is_same(&other[place]) {
            return Some(place);
        }
    }
    if one.len() == other.len() {
        None
    } else {
        Some(one.len())
    }
}
