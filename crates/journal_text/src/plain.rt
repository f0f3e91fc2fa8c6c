//! Which joint histories are plain.
ghost use Rattle.std.specs.Prelude.{◌≡◌, true, All, map};
ghost use Rattle.std.specs.List.Sorted.{IsStrictlyIncreasing};
ghost use Rattle.journal_lines.specs.Plain.{IsPlainEntry, IsPlainHostEntry, IsPlainBridgeEntry};
ghost use Rattle.journal_lines.specs.Plain.{IsPlainRing};
ghost use Rattle.journal_text.specs.Journal.{IsPlain};

use joint_history::{BridgeLog, ControllerLog, HostLog, Joint, RingLog};
use journal_lines::{
    are_plain_bridge_entries, are_plain_entries, are_plain_host_entries, are_plain_ring,
};

fn are_plain_logs(logs: &[ControllerLog]) -> bool
    ensures only { result ≡ true → All (λ log. All IsPlainEntry log.entries) logs.now }
    ensures all { All (λ log. All IsPlainEntry log.entries) logs.now → result ≡ true }
{
    for at in 0..logs.len() {
        if !are_plain_entries(logs[at].entries.as_slice()) {
            return false;
        }
    }
    true
}

fn are_plain_host_logs(logs: &[HostLog]) -> bool
    ensures only { result ≡ true → All (λ log. All IsPlainHostEntry log.entries) logs.now }
    ensures all { All (λ log. All IsPlainHostEntry log.entries) logs.now → result ≡ true }
{
    for at in 0..logs.len() {
        if !are_plain_host_entries(logs[at].entries.as_slice()) {
            return false;
        }
    }
    true
}

fn controllers_rise(logs: &[ControllerLog]) -> bool
    ensures only { result ≡ true → IsStrictlyIncreasing (map (λ log. log.node) logs.now) }
    ensures all { IsStrictlyIncreasing (map (λ log. log.node) logs.now) → result ≡ true }
{
    for at in 1..logs.len() {
        if logs[at - 1].node >= logs[at].node {
            return false;
        }
    }
    true
}

fn hosts_rise(logs: &[HostLog]) -> bool
    ensures only { result ≡ true → IsStrictlyIncreasing (map (λ log. log.node) logs.now) }
    ensures all { IsStrictlyIncreasing (map (λ log. log.node) logs.now) → result ≡ true }
{
    for at in 1..logs.len() {
        if logs[at - 1].node >= logs[at].node {
            return false;
        }
    }
    true
}

fn are_plain_bridge_logs(logs: &[BridgeLog]) -> bool
    ensures only { result ≡ true → All (λ log. All IsPlainBridgeEntry log.entries) logs.now }
    ensures all { All (λ log. All IsPlainBridgeEntry log.entries) logs.now → result ≡ true }
{
    for at in 0..logs.len() {
        if !are_plain_bridge_entries(logs[at].entries.as_slice()) {
            return false;
        }
    }
    true
}

fn bridges_rise(logs: &[BridgeLog]) -> bool
    ensures only { result ≡ true → IsStrictlyIncreasing (map (λ log. log.left) logs.now) }
    ensures all { IsStrictlyIncreasing (map (λ log. log.left) logs.now) → result ≡ true }
{
    for at in 1..logs.len() {
        if logs[at - 1].left >= logs[at].left {
            return false;
        }
    }
    true
}

fn rings_rise(logs: &[RingLog]) -> bool
    ensures only { result ≡ true → IsStrictlyIncreasing (map (λ log. log.network) logs.now) }
    ensures all { IsStrictlyIncreasing (map (λ log. log.network) logs.now) → result ≡ true }
{
    for at in 1..logs.len() {
        if logs[at - 1].network >= logs[at].network {
            return false;
        }
    }
    true
}

fn are_plain_ring_logs(logs: &[RingLog]) -> bool
    ensures only { result ≡ true → All (λ log. All IsPlainRing log.entries) logs.now }
    ensures all { All (λ log. All IsPlainRing log.entries) logs.now → result ≡ true }
{
    for at in 0..logs.len() {
        if !are_plain_ring(logs[at].entries.as_slice()) {
            return false;
        }
    }
    true
}

/// Whether a joint history is plain, so that it has a journal.
pub fn is_plain(joint: &Joint) -> bool
    ensures only { result ≡ true → IsPlain joint.now }
    ensures all { IsPlain joint.now → result ≡ true }
{
    controllers_rise(joint.controllers.as_slice())
        && hosts_rise(joint.hosts.as_slice())
        && bridges_rise(joint.bridges.as_slice())
        && rings_rise(joint.rings.as_slice())
        && are_plain_logs(joint.controllers.as_slice())
        && are_plain_host_logs(joint.hosts.as_slice())
        && are_plain_bridge_logs(joint.bridges.as_slice())
        && are_plain_ring_logs(joint.rings.as_slice())
}
