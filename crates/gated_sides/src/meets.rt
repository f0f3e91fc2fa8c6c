//! An object that is told where the threads of a run are.

/// Is told where the threads of a run are; each call may wait.
pub trait Meet {
    /// A scan worker stands inside the gate of this node's controller, at a Solve.
    fn in_ram(&self, node: u8);

    /// A worker made an entry of the ring in this node's name, and holds no gate.
    fn ring_entry(&self, node: u8);
}

/// Does nothing.
#[derive(Clone, Copy, Debug)]
pub struct NoMeet;

impl Meet for NoMeet {
    fn in_ram(&self, node: u8) {
        let _ = node;
    }

    fn ring_entry(&self, node: u8) {
        let _ = node;
    }
}
