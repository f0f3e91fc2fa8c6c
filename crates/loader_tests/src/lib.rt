//! Tests of plant files: what each is answered with.
#![tactic(auto)]

#[cfg(test)]
mod files;
#[cfg(test)]
mod made;
