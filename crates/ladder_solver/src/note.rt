//! What conducted when a network was solved.
ghost use Rattle.std.specs.Prelude.{◌≡◌, ◌≤◌, ◌+◌, ◌∷◌, ◌++◌, [], map, vec_capacity, vec_len};
ghost use Rattle.ladder_solver.specs.Noted.{columns};
ghost use Rattle.ladder_solver.specs.Noting.{border_at, HasRoom};

use crate::places::Site;
use crate::rows::Borders;

/// What conducted when a network was solved: for each of its eleven columns the rows that were live
/// at its right border as the network ended, bit 0 for row 1; none where SKP, RET or the watchdog
/// ended the network in that column or before it. *Modicon Ladder Logic Block Library User Guide*;
/// the mask is this project's own.
#[derive(Clone, Copy)]
pub struct NetworkFlow {
    /// Counted from 1.
    pub segment: usize,
    /// Counted from 1, in the segment.
    pub network: usize,
    pub borders: [Option<u8>; 11],
}

/// The rows that are live at the right border of a column, where so many columns were solved to
/// their end.
fn border_at(live: &Borders, solved: u8, column: usize) -> Option<u8>
    requires { column ≤ 11 }
    ensures { result ≡ border_at live.now solved column }
{
    if column <= usize::from(solved) {
        Some(live[column])
    } else {
        None
    }
}

/// The note of a network of which so many columns were solved to their end.
pub(crate) fn conducted(site: Site, live: &Borders, solved: u8) -> NetworkFlow
    ensures { result ≡ record {
      segment = site.segment;
      network = site.network;
      borders = map (border_at live.now solved) columns;
    } }
{
    NetworkFlow {
        segment: site.segment,
        network: site.network,
        borders: [
            border_at(live, solved, 1),
            border_at(live, solved, 2),
            border_at(live, solved, 3),
            border_at(live, solved, 4),
            border_at(live, solved, 5),
            border_at(live, solved, 6),
            border_at(live, solved, 7),
            border_at(live, solved, 8),
            border_at(live, solved, 9),
            border_at(live, solved, 10),
            border_at(live, solved, 11),
        ],
    }
}

/// One more note, for which there is room: takes no memory.
pub(crate) fn push_note(notes: &mut Vec<NetworkFlow>, note: NetworkFlow)
    requires { HasRoom 1 notes.old 0 }
    ensures items { notes.new.items ≡ notes.old.items ++ note ∷ [] }
    ensures many { vec_len notes.new ≡ vec_len notes.old + 1 }
    ensures room { vec_capacity notes.old ≤ vec_capacity notes.new }
{
    let _ = notes.push(note);
}
