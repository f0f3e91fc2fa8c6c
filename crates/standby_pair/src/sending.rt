//! What the primary sends to the standby, and what of it is acknowledged.
ghost use Rattle.std.specs.Prelude.{◌≡◌, ◌+◌, ◌<◌, ◌≤◌, ◌^◌, ◌++◌, length, OnOk, IfOk};
ghost use Rattle.ring_core.specs.Machine.{fate_at, fate_reaches};
ghost use Rattle.standby_pair.specs.Kept.{after_sending, packet_of, replies_between, scan_parts};
ghost use Rattle.standby_pair.specs.Kept.{with_delivered, CanTake, FollowEachOther, HasSent};
ghost use Rattle.standby_pair.specs.Kept.{link_to, IsRowOf, WritesTold};
ghost use Rattle.standby_pair.specs.Pair.{pieces_text, primary_pieces};
ghost use Rattle.standby_pair.specs.Sending.{is_told};

use crate::scanning::ScanMade;
use hot_standby::{Packet, Standby, StandbyNo, Taken};
use plant_types::{Copied, Fate};
use std::alloc::{AllocError, Global};

/// How far a primary has come with its standby.
pub(crate) struct Link {
    pub(crate) standby: Standby,
    /// How many transmissions there were.
    pub(crate) sent: u64,
    /// How many scans are acknowledged.
    pub(crate) told: u32,
    /// How many of them the standby knows of: that of the last packet that it took.
    pub(crate) known: u32,
}

impl Drop for Link {
    fn drop(self) {
        let Link {
            standby: _,
            sent: _,
            told: _,
            known: _,
        } = self;
    }
}

/// What becomes of the transmission before which there were so many.
fn fate_at(fates: &[Fate], sent: u64) -> Fate
    requires { 1 ≤ length fates.now }
    ensures { result ≡ fate_at fates.now sent }
{
    fates[(sent % (fates.len() as u64)) as usize]
}

/// Whether a transmission arrives.
fn reaches(fate: Fate) -> bool
    ensures { result ≡ fate_reaches fate }
{
    match fate {
        Fate::D | Fate::A => true,
        Fate::L => false,
    }
}

impl Link {
    /// Nothing was sent to a standby.
    pub(crate) fn of(standby: Standby) -> Link
        ensures { result ≡ link_to standby }
    {
        Link {
            standby,
            sent: 0,
            told: 0,
            known: 0,
        }
    }

    /// The standby takes a packet, and knows what was acknowledged before it was sent.
    fn deliver(&mut self, packet: &Packet) -> Result<(), AllocError>
        requires { CanTake self.old.standby packet.now }
        ensures { OnOk result (self.new ≡ with_delivered self.old packet.now) }
    {
        match self.standby.take(packet) {
            Ok(Taken::New | Taken::Repeated) => self.known = packet.acked,
            Ok(Taken::Early) => unreachable!(),
            Err(StandbyNo::NoMemory) => return Err(AllocError),
            Err(StandbyNo::NotLegal) => unreachable!(),
        }
        Ok(())
    }

    /// Sends the packet of the first scan that is not acknowledged, and answers whether it is now.
    fn send(&mut self, alloc: Global, fate: Fate, scan: &ScanMade) -> Result<bool, AllocError>
        requires can { CanTake self.old.standby (packet_of self.old scan.now) }
        requires few { (self.old.told + 1 < 2 ^ 32) × (self.old.sent + 1 < 2 ^ 64) }
        ensures told { IfOk result (λ told. told ≡ is_told fate) }
        ensures link { OnOk result (self.new ≡ after_sending self.old fate scan.now) }
    {
        if reaches(fate) {
            let entries = scan.entries.copied(alloc)?;
            self.deliver(&Packet {
                scan: self.told + 1,
                acked: self.told,
                entries,
            })?;
        }
        self.sent += 1;
        let is_told = fate == Fate::D;
        if is_told {
            self.told += 1;
        }
        Ok(is_told)
    }

    /// Behind one scan more, sends the packets of those that are not acknowledged, in order, up to
    /// the first that is not told to have arrived. Adds the replies of each scan that is
    /// acknowledged.
    fn send_behind(
        &mut self,
        alloc: Global,
        fates: &[Fate],
        scans: &[ScanMade],
        before: usize,
        text: &mut Vec<u8>,
    ) -> Result<(), AllocError>
        requires fates { 1 ≤ length fates.now }
        requires before { (before < length scans.now) × (length scans.now < 2 ^ 32) }
        requires follow { FollowEachOther self.old.standby.fixed (scan_parts scans.now) }
        requires sent { HasSent self.old.standby.fixed fates.now (scan_parts scans.now) before
            self.old }
        ensures sent { OnOk result (HasSent self.old.standby.fixed fates.now
            (scan_parts scans.now) (before + 1) self.new) }
        ensures row { OnOk result (IsRowOf fates.now (before + 1) self.old self.new) }
        ensures text { OnOk result (text.new.items ≡ text.old.items
            ++ replies_between (scan_parts scans.now) self.old.told self.new.told) }
    {
        for scan in &scans[self.told as usize..before + 1] {
            let fate = fate_at(fates, self.sent);
            if !self.send(alloc, fate, scan)? {
                return Ok(());
            }
            text.extend_from_slice(&scan.replies)?;
        }
        Ok(())
    }

    /// The standby alone; takes no memory.
    pub(crate) fn into_standby(self) -> Standby
        ensures { result ≡ self.standby }
    {
        let Link {
            standby,
            sent: _,
            told: _,
            known: _,
        } = self;
        standby
    }

    /// Writes the panel line of each scan of a primary, and sends behind it.
    pub(crate) fn send_all(
        &mut self,
        alloc: Global,
        fates: &[Fate],
        scans: &[ScanMade],
        text: &mut Vec<u8>,
    ) -> Result<(), AllocError>
        requires fates { 1 ≤ length fates.now }
        requires few { length scans.now < 2 ^ 32 }
        requires follow { FollowEachOther self.old.standby.fixed (scan_parts scans.now) }
        requires begins { HasSent self.old.standby.fixed fates.now (scan_parts scans.now) 0
            self.old }
        ensures sent { OnOk result (HasSent self.old.standby.fixed fates.now
            (scan_parts scans.now) (length scans.now) self.new) }
        ensures text { OnOk result (text.new.items ≡ text.old.items
            ++ pieces_text (scan_parts scans.now) (primary_pieces fates.now (length scans.now))) }
        ensures written { OnOk result (WritesTold (length scans.now)
            (primary_pieces fates.now (length scans.now)) self.new.told) }
    {
        for (place, scan) in scans.iter().enumerate() {
            text.extend_from_slice(&scan.line)?;
            self.send_behind(alloc, fates, scans, place, text)?;
        }
        Ok(())
    }
}
