//! All rings of a run: their gates are made, and closed once all passes are back.
ghost use Rattle.std.specs.Prelude.{◌≡◌, ◌<◌, ◌∷◌, ◌++◌, true, [], All, IfOk, length, map};
ghost use Rattle.std.specs.List.{AllZip};
ghost use Rattle.plant_types.specs.Plans.{IsNetPlan};
ghost use Rattle.live_run.specs.Closing.{AllClosed, IsClosable, IsOpened, IsRoomFor};
ghost use Rattle.live_run.specs.Closing.{net_of_gate};

use crate::dealing::keep;
use crate::homes::RingHome;
use gated_sides::RingCell;
use joint_history::RingLog;
use plant_types::NetPlan;
use std::alloc::{AllocError, Global};
use turn_gate::Pass;

/// The rings of a run, pass 0 of each, and whether all are there.
pub(crate) struct Rings {
    pub(crate) homes: Vec<RingHome>,
    pub(crate) purses: Vec<Option<Pass<RingCell>>>,
    pub(crate) whole: bool,
}

/// Room for rings.
fn room_for(alloc: Global, count: usize) -> Result<Rings, AllocError>
    ensures { IfOk result (IsRoomFor count) }
{
    let homes = Vec::with_capacity(alloc, count)?;
    let Ok(purses) = Vec::with_capacity(alloc, count) else {
        homes.destroy_empty();
        return Err(AllocError);
    };
    Ok(Rings {
        homes,
        purses,
        whole: true,
    })
}

/// The rings of these networks; those that had memory, where it ran out.
pub(crate) fn open_all(alloc: Global, nets: &[NetPlan]) -> Result<Rings, AllocError>
    requires { All IsNetPlan nets.now }
    ensures opened { IfOk result (λ rings. AllZip IsOpened rings.homes.items rings.purses.items) }
    ensures nets { IfOk result (λ rings. rings.whole ≡ true
        → map net_of_gate rings.homes.items ≡ nets.now) }
{
    let mut rings = room_for(alloc, nets.len())?;
    for index in 0..nets.len() {
        match RingHome::new(alloc, &nets[index]) {
            Ok((home, pass)) => {
                rings.homes.push_reserved(home);
                rings.purses.push_reserved(Some(pass));
            }
            Err(_) => {
                rings.whole = false;
                return Ok(rings);
            }
        }
    }
    Ok(rings)
}

/// What was noted on each ring, as far as memory was there.
pub(crate) fn close_all(alloc: Global, rings: Rings) -> (Vec<RingLog>, bool)
    requires { AllZip IsClosable rings.homes.items rings.purses.items }
    ensures { result.1 ≡ true
        → AllClosed rings.homes.items rings.purses.items result.0.items }
{
    let Rings {
        mut homes,
        mut purses,
        whole: _,
    } = rings;
    let mut done = true;
    let mut logs = Vec::new(alloc);
    homes.as_mut_slice().reverse();
    purses.as_mut_slice().reverse();
    while let Some(home) = homes.pop() {
        let purse = next_of(&mut purses);
        let log = home.close(purse);
        done &= keep(&mut logs, Some(log)).is_ok();
    }
    homes.destroy_empty();
    purses.destroy_empty();
    (logs, done)
}

/// The last of a stack, which is there.
fn next_of(purses: &mut Vec<Option<Pass<RingCell>>>) -> Option<Pass<RingCell>>
    requires { 0 < length purses.old.items }
    ensures { purses.old.items ≡ purses.new.items ++ result ∷ [] }
{
    match purses.pop() {
        Some(purse) => purse,
        None => unreachable!(),
    }
}
