//! The closed lists of a run, put together.
ghost use Rattle.std.specs.Prelude.{◌≡◌, IfOk, map};
ghost use Rattle.live_run.specs.Runs.{IsMadeOf, log_part, notes_part};

use controller_core::Notes;
use joint_history::{BridgeLog, ControllerLog, HostLog, Joint, Noted, RingLog};
use live_workers::NotedLog;
use plant_types::List;
use std::alloc::{AllocError, Global};

/// The histories of controllers, and their notes, each in a list of their own.
fn apart(
    alloc: Global,
    noted: Vec<NotedLog>,
) -> Result<(Vec<ControllerLog>, Vec<Notes>), AllocError>
    ensures logs { IfOk result (λ lists. lists.0.items ≡ map log_part noted.items) }
    ensures notes { IfOk result (λ lists. lists.1.items ≡ map notes_part noted.items) }
{
    let count = noted.as_slice().len();
    let mut logs = Vec::with_capacity(alloc, count)?;
    let mut notes = Vec::with_capacity(alloc, count)?;
    for one in noted {
        logs.push_reserved(one.log);
        notes.push_reserved(one.notes);
    }
    Ok((logs, notes))
}

/// The joint history of closed lists, with the notes of its controllers.
pub(crate) fn noted_of(
    alloc: Global,
    controllers: Vec<NotedLog>,
    hosts: Vec<HostLog>,
    bridges: Vec<BridgeLog>,
    rings: Vec<RingLog>,
) -> Result<Noted, AllocError>
    ensures { IfOk result (IsMadeOf controllers.items hosts.items bridges.items rings.items) }
{
    let (logs, notes) = apart(alloc, controllers)?;
    let joint = Joint {
        controllers: List::from_vec(logs),
        hosts: List::from_vec(hosts),
        bridges: List::from_vec(bridges),
        rings: List::from_vec(rings),
    };
    Ok(Noted {
        joint,
        notes: List::from_vec(notes),
    })
}
