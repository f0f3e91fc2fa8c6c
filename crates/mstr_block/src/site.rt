//! Where an MSTR block stands in its controller's registers.
use plant_types::Ref;

/// The registers of a block: its control block, and as many of its data area as there is room.
#[derive(Clone, Copy, Drop)]
pub(crate) struct Site {
    pub control: Ref,
    pub area: Ref,
    pub room: u16,
}
