//! The history of a ring, with room that is kept for it.
ghost use Rattle.std.specs.Prelude.{◌≡◌, ◌+◌, ◌<◌, ◌≤◌, ◌++◌, ◌∷◌, [], OnOk, vec_len};
ghost use Rattle.std.specs.Prelude.{vec_capacity};

use crate::entry::RingEntry;
use std::alloc::AllocError;

// Room for one more entry beside the spare.
pub(crate) fn make_room(history: &mut Vec<RingEntry>, spare: u32) -> Result<(), AllocError>
    requires { vec_len history.old + spare ≤ vec_capacity history.old }
    ensures items { history.new.items ≡ history.old.items }
    ensures ok { OnOk result (vec_len history.new + (spare + 1) ≤ vec_capacity history.new) }
    ensures room { vec_len history.new + spare ≤ vec_capacity history.new }
{
    history.try_reserve(spare as usize + 1)
}

// One more entry, for which there is room.
pub(crate) fn note(history: &mut Vec<RingEntry>, entry: RingEntry)
    requires { vec_len history.old < vec_capacity history.old }
    ensures items { history.new.items ≡ history.old.items ++ entry ∷ [] }
    ensures room { vec_len history.new ≡ vec_len history.old + 1 }
    ensures capacity { vec_capacity history.old ≤ vec_capacity history.new }
{
    let _ = history.push(entry);
}
