//! What a run hands over.
use crate::joint::Joint;
use controller_core::Notes;
use plant_types::List;

/// A joint history, with what each of its controllers noted of its panel. This project's own.
#[derive(Drop)]
pub struct Noted {
    pub joint: Joint,
    /// The notes of the controllers, in the order of the joint history.
    pub notes: List<Notes>,
}
