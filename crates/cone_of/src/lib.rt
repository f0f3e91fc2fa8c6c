//! What a controller's references depend on: the references that its networks read and store in,
//! the sets of references that are closed under that, and the least of them.
#![tactic(auto)]

mod cone;
mod growing;
mod uses;

pub use cone::Cone;
pub use growing::cone_of;
