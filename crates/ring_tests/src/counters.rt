//! The counters of a station.
use station_stats::{StatEvent, Stats};

const EVENTS: [StatEvent; 15] = [
    StatEvent::Pass,
    StatEvent::RequestPosted,
    StatEvent::ReplyPosted,
    StatEvent::Acked,
    StatEvent::Silent,
    StatEvent::Busy,
    StatEvent::RequestAccepted,
    StatEvent::RequestRepeated,
    StatEvent::ReplyAccepted,
    StatEvent::ReplyDropped,
    StatEvent::RequestTaken,
    StatEvent::ReplyTaken,
    StatEvent::GiveUp,
    StatEvent::OwnLocal,
    StatEvent::OtherLocal,
];

/// Notes an event so often.
fn note(stats: &mut Stats, event: StatEvent, times: usize) {
    for _ in 0..times {
        stats.note(event);
    }
}

#[test]
fn each_event_has_its_word(rt: HostRuntime) {
    let mut stats = Stats::new(5);
    for (k, event) in EVENTS.iter().enumerate() {
        note(&mut stats, *event, k + 1);
    }
    let words = stats.words(3, 2);
    assert!(rt;
        words
            == [
                5, 3, 1, 2, 3, 4, 5, 6, 7, 8, 9, 10, 11, 12, 13, 14, 15, 2, 0, 0
            ]
    );
    stats.clear();
    assert!(rt; stats.words(1, 0) == [5, 1, 0, 0, 0, 0, 0, 0, 0, 0, 0, 0, 0, 0, 0, 0, 0, 0, 0, 0]);
}

#[test]
fn a_counter_goes_round(rt: HostRuntime) {
    let mut stats = Stats::new(64);
    note(&mut stats, StatEvent::Pass, 65_535);
    assert!(rt; stats.words(1, 0)[2] == 65_535);
    stats.note(StatEvent::Pass);
    assert!(rt; stats.words(1, 0)[2] == 0);
}
