//! A dial with few marks.
ghost use Rattle.std.specs.Prelude.{◌≡◌, ◌≤◌, slice_index};

use state_space::Machine;
use std::alloc::AllocError;

/// A dial with so many marks, from 0 on. A move goes on by one mark, or to twice the mark, round and
/// round. One mark is bad.
#[derive(Clone, Copy)]
pub struct Turns {
    pub marks: u16,
    pub bad: u16,
    ghost some: { 1 ≤ marks },
    ghost few: { marks ≤ 1000 },
}

/// The first word of a key, or 0.
fn mark_of(key: &[u16]) -> u16
    ensures { result ≡ slice_index key.now 0 }
{
    match key.first() {
        Some(mark) => *mark,
        None => 0,
    }
}

impl Machine<()> for Turns {
    ghost use Rattle.std.specs.Prelude.{[], ◌∷◌, ◌==◌, slice_index};
    ghost use Rattle.space_tests.specs.Turns.{behind};

    ghost fits = { λ dial work. Unit {0} };

    ghost starts = { λ dial key. key ≡ 0 ∷ [] };

    ghost count = { λ dial. 2 };

    ghost leads = { λ dial from by key. key ≡ behind dial.marks (slice_index from 0) by ∷ [] };

    ghost bad = { λ dial key. slice_index key 0 == dial.bad };

    fn start(&self, _work: &mut (), key: &mut Vec<u16>) -> Result<(), AllocError> {
        key.clear();
        key.push(0)?;
        Ok(())
    }

    fn moves(&self) -> usize {
        2
    }

    fn next(
        &self,
        _work: &mut (),
        from: &[u16],
        by: usize,
        key: &mut Vec<u16>,
    ) -> Result<(), AllocError> {
        let mark = u32::from(mark_of(from));
        let further = if by == 0 { mark + 1 } else { 2 * mark };
        key.clear();
        key.push((further % u32::from(self.marks)) as u16)?;
        Ok(())
    }

    fn is_bad(&self, key: &[u16]) -> bool {
        mark_of(key) == self.bad
    }
}
