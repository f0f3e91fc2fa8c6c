//! How a worker waits between its turns, and lets others go first between its scans.
use crate::crews::Crew;
use crate::flags::Watch;
use crossbeam_utils::Backoff;
use std::thread::{sleep, yield_now};
use std::time::{Clock, Duration, Instant};

/// For so many millionths of a second a scan worker goes on before it lets others go first. With
/// few processors a worker that has the token would else wait for a time slice of each of them.
const STINT: u64 = 50;

/// How often a worker waits for one that has not begun: where no thread could be made, that one may
/// stand behind the worker itself.
const MOST_WAITS: u32 = 10_000;

/// Each of these waits takes so many thousandths of a second, and hardly any processor time.
const A_WAIT: u64 = 1;

/// Waits longer and longer, as long as turns do nothing.
#[derive(Drop)]
pub(crate) struct Pause {
    backoff: Backoff,
    entries: u64,
    waits: u32,
}

impl Pause {
    /// A worker that has not waited yet.
    pub(crate) fn new() -> Pause {
        Pause {
            backoff: Backoff::new(),
            entries: 0,
            waits: 0,
        }
    }

    /// Waits, unless the worker made entries of the ring besides its Pass since the last time. It
    /// does not wait for a worker that has given up, and raises the flag where others do not begin.
    pub(crate) fn rest<C: Clock>(
        &mut self,
        clock: &C,
        crew: &Crew,
        watch: &mut Watch<'_>,
        entries: u64,
    ) {
        let made = entries.wrapping_sub(self.entries);
        self.entries = entries;
        if made > 1 {
            self.backoff.reset();
        } else if !watch.is_raised() {
            self.wait(clock, crew, watch);
        }
    }

    fn wait<C: Clock>(&mut self, clock: &C, crew: &Crew, watch: &mut Watch<'_>) {
        if crew.is_whole() || !self.backoff.is_completed() {
            self.backoff.snooze();
        } else if self.waits < MOST_WAITS {
            self.waits = self.waits.saturating_add(1);
            sleep(clock, Duration::from_millis(A_WAIT));
        } else {
            watch.raise();
        }
    }
}

/// Since when a scan worker has not let others go first.
#[derive(Drop)]
pub(crate) struct Stint {
    since: Option<Instant>,
}

impl Stint {
    /// A scan worker that has not let others go first yet.
    pub(crate) fn new() -> Stint {
        Stint { since: None }
    }

    /// A scan has ended: others go first, unless they did a short while before. Where no clock can
    /// be read they go first after each scan.
    pub(crate) fn scan_ended<C: Clock>(&mut self, clock: &C) {
        if self.is_over(clock) {
            yield_now();
            self.since = Instant::now(clock).ok();
        }
    }

    fn is_over<C: Clock>(&self, clock: &C) -> bool {
        let Some(since) = &self.since else {
            return true;
        };
        match since.elapsed(clock) {
            Ok(spent) => spent >= Duration::from_micros(STINT),
            Err(_) => true,
        }
    }
}
