//! The requests of the profile.
use plant_types::{List, Words};

/// A request, one variant for each function (*Modicon Modbus Protocol Reference Guide*).
///
/// Addresses count from 0: address 0 is the reference with number 1.
#[derive(Drop)]
pub enum Request {
    /// Function 1, of 0x references; 1 to 2000 of them.
    ReadCoils {
        address: u16,
        quantity: u16,
    },
    /// Function 2, of 1x references; 1 to 2000 of them.
    ReadInputs {
        address: u16,
        quantity: u16,
    },
    /// Function 3, of 4x references; 1 to 125 of them.
    ReadRegisters {
        address: u16,
        quantity: u16,
    },
    /// Function 4, of 3x references; 1 to 125 of them.
    ReadInputRegisters {
        address: u16,
        quantity: u16,
    },
    /// Function 5, of a 0x reference.
    WriteCoil {
        address: u16,
        on: bool,
    },
    /// Function 6, of a 4x reference.
    WriteRegister {
        address: u16,
        value: u16,
    },
    /// Function 8 with sub-function 0: the word comes back.
    Echo {
        word: u16,
    },
    /// Function 8 with sub-function 21: the network statistics, given or cleared.
    Stats {
        clear: bool,
    },
    /// Function 15, of 0x references; 1 to 1968 of them.
    WriteCoils {
        address: u16,
        bits: List<bool>,
    },
    /// Function 16, of 4x references; 1 to 123 of them.
    WriteRegisters {
        address: u16,
        words: Words,
    },
    /// Function 22: a 4x reference becomes `(value AND and_mask) OR (or_mask AND NOT and_mask)`.
    Mask {
        address: u16,
        and_mask: u16,
        or_mask: u16,
    },
    /// Function 23, of 4x references: writes 1 to 121 words from `write` on, then reads 1 to 125
    /// from `read` on.
    ReadWrite {
        read: u16,
        quantity: u16,
        write: u16,
        words: Words,
    },
}
