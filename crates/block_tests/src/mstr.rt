//! MSTR blocks by the table of their states, every case worked out by hand. Registers count from
//! 40001.
mod acts;
mod answers;
mod copies;
mod errors;
mod failures;
mod rig;
mod states;
