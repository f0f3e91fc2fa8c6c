//! How many Replies may be posted.
ghost use Rattle.std.specs.Prelude.{◌≡◌, ◌≤◌, [], slice_get};
ghost use Rattle.time_judge.specs.Counts.{IsWalk, IsWholeWalk, walk_step};

/// So many of the Requests taken are answered, by so many answers of the station and by so much
/// that the port answered; so many of them with a Reply.
#[derive(Clone, Copy)]
pub(crate) struct Walk {
    pub requests: usize,
    pub answers: usize,
    pub port: u64,
    pub ready: usize,
}

impl Walk {
    pub(crate) fn none() -> Walk
        ensures { IsWalk result [] [] 0 }
    {
        Walk {
            requests: 0,
            answers: 0,
            port: 0,
            ready: 0,
        }
    }

    // One Request further, if its answer is there.
    fn step(self, requests: &[bool], answers: &[bool], told: u64) -> Option<Walk>
        requires { self.ready ≤ self.requests }
        ensures { result ≡ walk_step self (slice_get requests.now self.requests) answers.now told }
    {
        match requests.get(self.requests) {
            None => None,
            Some(true) => match answers.get(self.answers) {
                None => None,
                Some(with_reply) => Some(Walk {
                    requests: self.requests + 1,
                    answers: self.answers + 1,
                    ready: self.ready + usize::from(*with_reply),
                    ..self
                }),
            },
            Some(false) if self.port < told => Some(Walk {
                requests: self.requests + 1,
                port: self.port + 1,
                ready: self.ready + 1,
                ..self
            }),
            Some(false) => None,
        }
    }
}

/// How far the Requests are answered, where they were so far before. Takes time in proportion to
/// how much further that is.
pub(crate) fn walk_on(from: Walk, requests: &[bool], answers: &[bool], told: u64) -> Walk
    requires { IsWalk from requests.now answers.now told }
    ensures { IsWholeWalk result requests.now answers.now told }
{
    let mut walk = from;
    'walk: loop {
        match walk.step(requests, answers, told) {
            Some(next) => walk = next,
            None => return walk,
        }
    }
}
