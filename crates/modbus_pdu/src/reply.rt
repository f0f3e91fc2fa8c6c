//! The replies of the profile.
use crate::request::Request;
use plant_types::{List, Words};

/// A reply (*Modicon Modbus Protocol Reference Guide*).
#[derive(Drop)]
pub enum Reply {
    /// Of function 1 or 2; 1 to 2000 bits.
    Bits {
        function: u8,
        bits: List<bool>,
    },
    /// Of function 3, 4 or 23; 1 to 125 words.
    Words {
        function: u8,
        words: Words,
    },
    /// The request again, of function 5, 6, 22 or 8 with sub-function 0.
    Same(Request),
    /// Of function 15 or 16: how many were written.
    Written {
        function: u8,
        address: u16,
        quantity: u16,
    },
    /// Of function 8 with sub-function 21: twenty words, or none after a clear.
    Stats {
        words: Words,
    },
    /// The function with bit 7 set, and a code.
    Exception {
        function: u8,
        code: u8,
    },
}
