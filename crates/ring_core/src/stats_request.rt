//! Requests for statistics.
ghost use Rattle.std.specs.Prelude.{◌≡◌};
ghost use Rattle.ring_core.specs.Statistics.{is_stats, is_for_stats};

use crate::frame::Frame;
use plant_types::Pdu;

/// The request for the twenty statistics words (*Modicon Modbus Protocol Reference Guide*).
pub const GET_STATISTICS: [u8; 5] = [8, 0, 0x15, 0, 3];

/// The request that clears them.
pub const CLEAR_STATISTICS: [u8; 5] = [8, 0, 0x15, 0, 4];

/// Whether a PDU asks for the statistics, or clears them
/// (*Modicon Modbus Protocol Reference Guide*, function 8).
pub fn is_stats(pdu: &Pdu) -> bool
    ensures { result ≡ is_stats pdu.now }
{
    let bytes = pdu.bytes();
    bytes == &GET_STATISTICS[..] || bytes == &CLEAR_STATISTICS[..]
}

impl Frame {
    /// Whether it asks its target for the statistics, or to clear them: a Request with such a PDU
    /// that goes no further.
    pub fn is_for_stats(&self) -> bool
        ensures { result ≡ is_for_stats self.now }
    {
        !self.is_onward() && is_stats(&self.pdu)
    }
}
