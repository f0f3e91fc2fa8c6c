//! What a station counts.
ghost use Rattle.std.specs.Prelude.{◌≡◌, ◌<◌};
ghost use Rattle.station_stats.specs.Counts.{place_of};

/// An event that a station counts, in the order of statistics words 2 to 16.
/// The choice of these words is this project's own.
#[derive(Clone, Copy, Debug, Drop, PartialEq, Eq)]
pub enum StatEvent {
    /// The token was passed.
    Pass,
    /// A Request was posted.
    RequestPosted,
    /// A Reply was posted.
    ReplyPosted,
    /// A transmission was acknowledged.
    Acked,
    /// A transmission was not acknowledged.
    Silent,
    /// The target's inbox was full.
    Busy,
    /// A Request was accepted.
    RequestAccepted,
    /// A repeated Request was dropped.
    RequestRepeated,
    /// A Reply was accepted.
    ReplyAccepted,
    /// A Reply that is not awaited was dropped.
    ReplyDropped,
    /// A Request was taken.
    RequestTaken,
    /// A Reply was taken.
    ReplyTaken,
    /// A call was given up.
    GiveUp,
    /// A local call of the own station.
    OwnLocal,
    /// A local call for another station.
    OtherLocal,
}

impl StatEvent {
    // Its place among the counters.
    pub(crate) fn place(self) -> usize
        ensures place { result ≡ place_of self }
        ensures fits { result < 15 }
    {
        match self {
            StatEvent::Pass => 0,
            StatEvent::RequestPosted => 1,
            StatEvent::ReplyPosted => 2,
            StatEvent::Acked => 3,
            StatEvent::Silent => 4,
            StatEvent::Busy => 5,
            StatEvent::RequestAccepted => 6,
            StatEvent::RequestRepeated => 7,
            StatEvent::ReplyAccepted => 8,
            StatEvent::ReplyDropped => 9,
            StatEvent::RequestTaken => 10,
            StatEvent::ReplyTaken => 11,
            StatEvent::GiveUp => 12,
            StatEvent::OwnLocal => 13,
            StatEvent::OtherLocal => 14,
        }
    }
}
