//! A controller that is alone as a machine over keys of its states, what a search of all runs of its
//! field finds, and what one such run shows.
#![tactic(auto)]

mod alone;
mod asked;
mod choices;
mod counters;
mod exchanges;
mod field;
mod machine;
mod narrow;
mod narrowed;
mod reading;
mod scanning;
mod searching;
mod shown;
mod work;

pub use alone::{can_be_asked, is_alone};
pub use asked::Asked;
pub use choices::{choices_for, product};
pub use exchanges::{Exchange, exchanges_of, with_scripts};
pub use field::Field;
pub use machine::{word_at, words_behind};
pub use searching::{Found, search_field};
pub use shown::{Shown, show_run};
pub use work::Work;
