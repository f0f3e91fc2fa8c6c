//! Counters that run along.
ghost use Rattle.std.specs.Prelude.{◌≡◌};
ghost use Rattle.station_stats.specs.Counts.{cleared_counters, counted, stats_words};

use crate::event::StatEvent;
use std::marker::Model;

/// The counters of one station, modulo 65,536. None of its calls takes memory.
/// The words are this project's own.
#[derive(Drop)]
pub struct Stats {
    node: u8,
    counts: [u16; 15],
}

impl Model for Stats {
    ghost use Rattle.station_stats.specs.Counts.{StatsIs};

    ghost Value = { StatsIs };

    ghost view = { λ s. record { node = s.node; counts = s.counts } };
}

impl Stats {
    /// Nothing was counted yet.
    pub fn new(node: u8) -> Stats
        ensures { result ≡ cleared_counters node }
    {
        Stats {
            node,
            counts: [0; 15],
        }
    }

    /// Counts an event.
    pub fn note(&mut self, event: StatEvent)
        ensures { self.new ≡ counted self.old event }
    {
        let place = event.place();
        self.counts[place] = self.counts[place].wrapping_add(1);
    }

    /// Counts from zero on.
    pub fn clear(&mut self)
        ensures { self.new ≡ cleared_counters self.old.node }
    {
        self.counts = [0; 15];
    }

    /// The twenty statistics words. `members` is how many are members now, and `passed` the number
    /// of words that this station passed with its token last.
    pub fn words(&self, members: u16, passed: u16) -> [u16; 20]
        ensures { result ≡ stats_words self.now members passed }
    {
        let mut words = [0; 20];
        words[0] = self.node as u16;
        words[1] = members;
        words[2..17].copy_from_slice(&self.counts);
        words[17] = passed;
        words
    }
}
