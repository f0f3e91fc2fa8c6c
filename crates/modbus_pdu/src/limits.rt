//! How many references requests and replies may tell, and the codes of exceptions.

/// Coils or inputs in one read.
pub const DISCRETES_READ: u16 = 2000;

/// Registers in one read.
pub const REGISTERS_READ: u16 = 125;

/// Coils in one write.
pub const COILS_WRITTEN: u16 = 1968;

/// Registers in one write.
pub const REGISTERS_WRITTEN: u16 = 123;

/// Registers that function 23 writes.
pub const REGISTERS_EXCHANGED: u16 = 121;

/// The function is not served.
pub const ILLEGAL_FUNCTION: u8 = 1;

/// A reference is not there.
pub const ILLEGAL_ADDRESS: u8 = 2;

/// The form, a quantity or a count is wrong.
pub const ILLEGAL_VALUE: u8 = 3;
