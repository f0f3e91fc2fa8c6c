//! What lists of packets make of a standby.
ghost use Rattle.hot_standby.specs.Standby.{PacketsMakeTheHistory};

/// A standby is made of the packets that it took as New, whatever else came between.
pub fn packets_make_the_history()
    ensures { PacketsMakeTheHistory }
{}
