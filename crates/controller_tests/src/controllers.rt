//! Controllers with ample memory: what each is made of, what is done with it, and what it must
//! answer and note.
mod acts;
mod conducting;
mod messages;
mod notes;
mod plans;
mod power;
mod requests;
mod scans;

use acts::{Act, first_wrong};
use controller_core::{Controller, Entry, Notes};
use plans::{Plan, controller_of};
use plant_types::List;
use std::alloc::{AllocGlobal, Global};
use std::process::Abort;
use std::test::Fail;

/// A controller, what is done with it, one after another, and what it has noted then.
pub struct Case {
    pub plan: Plan,
    pub acts: &'static [Act],
    /// How many events there were.
    pub events: usize,
    /// The values of the panel as each scan was over.
    pub values: &'static [u16],
    /// How many scans are gone, and the code with which it stopped.
    pub gone: u32,
    pub stop: u16,
}

/// What is left of a controller, and the place of the first act that went otherwise.
#[derive(Drop)]
pub struct Left {
    pub wrong: Option<usize>,
    pub history: List<Entry>,
    pub notes: Notes,
}

/// Does what a case says, up to the first act that goes otherwise.
fn left_by(alloc: Global, mut controller: Controller, acts: &[Act]) -> Result<Left, Fail> {
    let wrong = first_wrong(alloc, &mut controller, acts)?;
    let (history, notes) = controller.into_parts();
    Ok(Left {
        wrong,
        history,
        notes,
    })
}

/// What is left of the controller of a case.
pub fn run(rt: &(impl Abort + AllocGlobal), case: &Case) -> Result<Left, Fail> {
    let controller = controller_of(rt, &case.plan)?;
    left_by(rt.alloc(), controller, case.acts)
}

/// A case goes as it says.
pub fn show(rt: &(impl Abort + AllocGlobal), case: &Case) -> Result<(), Fail> {
    let left = run(rt, case)?;
    assert_eq!(rt; left.wrong, None);
    assert_eq!(rt; left.history.as_slice().len(), case.events);
    assert!(rt; left.notes.values.as_slice() == case.values);
    assert_eq!(rt; (left.notes.gone, left.notes.stop), (case.gone, case.stop));
    Ok(())
}
