//! Drops of input and output modules, and what the field gives them.
use crate::list::List;
use crate::words::Words;

/// The most modules of a drop.
pub const MODULE_LIMIT: usize = 16;

/// The most words into a drop, and the most out of it.
pub const DROP_WORDS: usize = 64;

/// The most rows of a script.
pub const SCRIPT_LIMIT: usize = 10_000;

/// What a module carries. Its forms are this project's own.
#[derive(Clone, Copy, Debug, PartialEq, Eq)]
pub enum ModuleKind {
    /// Sixteen discrete inputs, 1x.
    In,
    /// Sixteen coils, 0x.
    Out,
    /// Input registers, 3x.
    InWords,
    /// Holding registers, 4x.
    OutWords,
}

/// One module of a drop: its first reference, and how many words it carries.
#[derive(Clone, Copy, Debug, PartialEq, Eq)]
pub struct Module {
    pub kind: ModuleKind,
    /// The number of its first reference: of discretes 1 plus a multiple of 16.
    pub first: u16,
    /// Words, 1 to 16; sixteen discretes are one word.
    pub count: u16,
}

/// What the field gives a drop at one input exchange. This project's own.
pub enum ScriptRow {
    /// The drop does not answer.
    Silent,
    /// One word for each input word of the drop, in the order of its modules.
    Row(Words),
}

impl Drop for ScriptRow {
    fn drop(self) {
        match self {
            ScriptRow::Silent | ScriptRow::Row(_) => {}
        }
    }
}

/// A drop: its modules, and what the field gives it. The script is this project's own.
pub struct IoDrop {
    /// 1 to 32.
    pub number: u8,
    /// Up to 16 modules, with up to 64 words in and 64 words out.
    pub modules: List<Module>,
    /// 1 to 10,000 rows; the last one stands for all later exchanges.
    pub script: List<ScriptRow>,
}

impl Drop for IoDrop {
    fn drop(self) {
        let IoDrop {
            number: _,
            modules: _,
            script: _,
        } = self;
    }
}
