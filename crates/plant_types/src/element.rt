//! What stands in a cell.
ghost use Rattle.std.specs.Prelude.{◌≡◌};
ghost use Rattle.plant_types.specs.Operands.{operand_number, HasNumber};

use crate::reference::Ref;
use crate::store::RefStore;

/// A constant, or a reference whose number is taken.
#[derive(Clone, Copy, Debug, PartialEq, Eq)]
pub enum Operand {
    /// 0 to 9999.
    Const(u16),
    At(Ref),
}

impl Operand {
    /// The constant, or the number in the register.
    pub fn number<R: RefStore>(self, ram: &R) -> u16
        requires { HasNumber (R.contents ram.now) self }
        ensures { result ≡ operand_number (R.contents ram.now) self }
    {
        match self {
            Operand::Const(number) => number,
            Operand::At(at) => ram.word(at),
        }
    }
}

/// The time base of a timer: 1 s, 0.1 s or 0.01 s.
#[derive(Clone, Copy, Debug, PartialEq, Eq)]
pub enum Unit {
    Second,
    Tenth,
    Hundredth,
}

/// Integer arithmetic (*Modicon Ladder Logic Block Library User Guide*).
#[derive(Clone, Copy, Debug, PartialEq, Eq)]
pub enum MathOp {
    Add,
    Sub,
    Mul,
    Div,
}

/// Moves between registers and tables of registers
/// (*Modicon Ladder Logic Block Library User Guide*).
#[derive(Clone, Copy, Debug, PartialEq, Eq)]
pub enum MoveOp {
    /// R>T
    RegToTable,
    /// T>R
    TableToReg,
    /// T>T
    TableToTable,
    /// BLKM
    Copy,
    /// FIN
    FirstIn,
    /// FOUT
    FirstOut,
    /// SRCH
    Search,
}

/// Blocks on the bits of a matrix of registers
/// (*Modicon Ladder Logic Block Library User Guide*).
#[derive(Clone, Copy, Debug, PartialEq, Eq)]
pub enum MatrixOp {
    And,
    Or,
    Xor,
    Comp,
    Cmpr,
    Mbit,
    Sens,
    Brot,
}

/// An element of ladder logic (*Modicon Ladder Logic Block Library User Guide*).
#[derive(Clone, Copy, Debug, PartialEq, Eq)]
pub enum Element {
    /// A normally open contact.
    Open(Ref),
    /// A normally closed contact.
    Closed(Ref),
    /// A positive transitional contact.
    Rise(Ref),
    /// A negative transitional contact.
    Fall(Ref),
    Coil(Ref),
    Latch(Ref),
    /// A horizontal short.
    Wire,
    Timer {
        unit: Unit,
        preset: Operand,
        /// The accumulator.
        acc: Ref,
    },
    Counter {
        /// Counts up from 0, or down from the preset.
        up: bool,
        preset: Operand,
        /// The accumulator.
        acc: Ref,
    },
    Math {
        op: MathOp,
        top: Operand,
        mid: Operand,
        low: Ref,
    },
    Move {
        op: MoveOp,
        top: Ref,
        mid: Ref,
        /// Registers of the table, 1 to 255.
        length: u16,
    },
    Matrix {
        op: MatrixOp,
        /// A constant at MBIT and SENS alone.
        top: Operand,
        mid: Ref,
        /// Registers of the matrix, 1 to 100.
        length: u16,
    },
    /// SKP: skips the rest of its network and further networks.
    Skip(Operand),
    /// LAB: a subroutine begins at its network. Its number, 1 to 255.
    Label(u16),
    /// JSR: solves the subroutine of a label.
    Call(Operand),
    /// RET: ends a subroutine.
    Return,
    /// MSTR: a message on Modbus Plus.
    Mstr {
        /// The first of the nine registers of its control block.
        control: Ref,
        /// The first register of its data area.
        area: Ref,
        /// Registers of the data area, 1 to 100.
        length: u16,
    },
}
