//! That a joint history has numbers and lists of its types. A call made for the prover alone.
ghost use Rattle.std.specs.Prelude.{All};
ghost use Rattle.journal_text.specs.Sizes.{FitsBridgeLog, FitsHostLog, FitsJoint, FitsLog};
ghost use Rattle.journal_text.specs.Sizes.{FitsRingLog};

use joint_history::{BridgeLog, ControllerLog, HostLog, Joint, RingLog};
use journal_lines::{
    bridge_entries_fit, entries_fit, host_entries_fit, ring_entries_fit, small_fits,
};

fn log(log: &ControllerLog)
    ensures { FitsLog log.now }
{
    small_fits(log.node);
    entries_fit(log.entries.as_slice());
}

fn logs(logs: &[ControllerLog])
    ensures { All FitsLog logs.now }
{
    for at in 0..logs.len() {
        log(&logs[at]);
    }
}

fn host_log(log: &HostLog)
    ensures { FitsHostLog log.now }
{
    small_fits(log.node);
    host_entries_fit(log.entries.as_slice());
}

fn host_logs(logs: &[HostLog])
    ensures { All FitsHostLog logs.now }
{
    for at in 0..logs.len() {
        host_log(&logs[at]);
    }
}

fn bridge_log(log: &BridgeLog)
    ensures { FitsBridgeLog log.now }
{
    small_fits(log.left);
    small_fits(log.right);
    bridge_entries_fit(log.entries.as_slice());
}

fn bridge_logs(logs: &[BridgeLog])
    ensures { All FitsBridgeLog logs.now }
{
    for at in 0..logs.len() {
        bridge_log(&logs[at]);
    }
}

fn ring_log(log: &RingLog)
    ensures { FitsRingLog log.now }
{
    small_fits(log.network);
    ring_entries_fit(log.entries.as_slice());
}

fn ring_logs(logs: &[RingLog])
    ensures { All FitsRingLog logs.now }
{
    for at in 0..logs.len() {
        ring_log(&logs[at]);
    }
}

/// A joint history fits its types: no number is beyond its type, and no list too long. It is called
/// for that clause alone; it changes nothing, and takes time in proportion to the entries.
pub fn fits_its_types(joint: &Joint)
    ensures { FitsJoint joint.now }
{
    logs(joint.controllers.as_slice());
    host_logs(joint.hosts.as_slice());
    bridge_logs(joint.bridges.as_slice());
    ring_logs(joint.rings.as_slice());
}
