//! The laws that tie what a station noted to what its node did on the ring: definitions alone.
#![tactic(auto)]

pub use reply_laws::result_of;
