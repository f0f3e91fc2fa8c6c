//! Networks laid out by columns, with a mask of shorts for each.
#![tactic(auto)]

mod grid;
mod joining;

pub use grid::{Column, Grid, Op, each_column_listed, each_grid_listed, grids_of};
pub use joining::column_join;
