//! Tests of frames in ASCII.
#![tactic(auto)]

#[cfg(test)]
mod frames;
#[cfg(test)]
mod heard;
#[cfg(test)]
mod limits;
#[cfg(test)]
mod texts;
