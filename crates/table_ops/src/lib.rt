//! The blocks that move the numbers of registers between tables, and search a table
//! (*Modicon Ladder Logic Block Library User Guide*).
#![tactic(auto)]

mod moves;
mod queues;
mod searching;

pub use moves::{block_move, reg_to_table, table_to_reg, table_to_table};
pub use queues::{first_in, first_out};
pub use searching::search;
