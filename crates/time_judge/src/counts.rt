//! What is counted of a station's list and of its node's entries on the ring.
ghost use Rattle.std.specs.Prelude.{◌≡◌, ◌+◌, ◌↔◌, IsTrue, IfOk, OnOk};
ghost use Rattle.std.specs.Prelude.{[], ◌∷◌, List, Bool};
ghost use Rattle.entry_causes.specs.Causes.{StationEntry, ByController, ByHost};
ghost use Rattle.entry_causes.specs.Causes.{noted_next, asking, doings, leaving};
ghost use Rattle.entry_causes.specs.Causes.{posting, taking, working};
ghost use Rattle.entry_causes.specs.Causes.{no_notes, no_deeds};
ghost use Rattle.time_judge.specs.Counts.{noted_is, done_is, NotedAre, IsNotedAfter, AreCallsNoted};
ghost use Rattle.time_judge.specs.Counts.{IsDoneAfter, AreCausedWith, answers_after};
ghost use Rattle.time_judge.specs.Counts.{requests_after, IsAnswerOf};

use controller_core::{Call, CallKind, Entry};
use host_port::HostEntry;
use ring_core::{FrameKind, LeaveCause, RingEntry};
use std::alloc::AllocError;

/// Of a station's list: calls of other nodes, calls of the own port, requests answered, calls
/// ended, power failures, and how many of them were over when it last had power.
#[derive(Clone, Copy)]
pub(crate) struct NotedCounts {
    pub asked: u64,
    pub asked_port: u64,
    pub served: u64,
    pub ended: u64,
    pub failed: u64,
    pub returned: u64,
}

/// Of what its node did: Requests posted, operations for its own station, Requests taken for the
/// station and for the port, those that the port answered, Replies posted, calls over, the number
/// of the failure as which it left last, and that as which it had left when it last came back.
#[derive(Clone, Copy)]
pub(crate) struct DoneCounts {
    pub posted: u64,
    pub worked_port: u64,
    pub taken: u64,
    pub taken_port: u64,
    pub answered_port: u64,
    pub replies: u64,
    pub over: u64,
    pub down: u32,
    pub joined: u32,
}

impl NotedCounts {
    pub(crate) fn none() -> NotedCounts
        ensures { noted_is result [] ≡ no_notes }
    {
        NotedCounts {
            asked: 0,
            asked_port: 0,
            served: 0,
            ended: 0,
            failed: 0,
            returned: 0,
        }
    }
}

impl DoneCounts {
    pub(crate) fn none() -> DoneCounts
        ensures { done_is result [] ≡ no_deeds }
    {
        DoneCounts {
            posted: 0,
            worked_port: 0,
            taken: 0,
            taken_port: 0,
            answered_port: 0,
            replies: 0,
            over: 0,
            down: 0,
            joined: 0,
        }
    }
}

/// An entry of a station's list.
pub(crate) trait StationItem {
    ghost entry: { Self → StationEntry };

    /// The counts after it.
    fn counted(&self, counts: NotedCounts) -> Result<NotedCounts, AllocError>
        ensures { IfOk result (IsNotedAfter counts (entry self.now)) };

    /// Whether it is an answer, and has a reply.
    fn answer(&self) -> Option<bool>
        ensures { IsAnswerOf (entry self.now) result };
}

// One more. A list that could not be counted would not have had the memory that it takes.
fn one_more(count: u64) -> Result<u64, AllocError>
    ensures { IfOk result (λ next. next ≡ count + 1) }
{
    match count.checked_add(1) {
        Some(next) => Ok(next),
        None => Err(AllocError),
    }
}

fn call_counted(counts: NotedCounts, kind: &CallKind) -> Result<NotedCounts, AllocError>
    ensures { IfOk result (λ next. (answers : List Bool)
        → NotedAre (noted_next (noted_is counts answers) (asking kind.now)) next) }
{
    match kind {
        CallKind::Net { .. } => Ok(NotedCounts {
            asked: one_more(counts.asked)?,
            ..counts
        }),
        CallKind::Local(_) => Ok(NotedCounts {
            asked_port: one_more(counts.asked_port)?,
            ..counts
        }),
    }
}

fn calls_counted(counts: NotedCounts, calls: &[Call]) -> Result<NotedCounts, AllocError>
    ensures { IfOk result (AreCallsNoted counts calls.now) }
{
    let mut next = counts;
    for call in calls {
        next = call_counted(next, &call.kind)?;
    }
    Ok(next)
}

impl StationItem for Entry {
    ghost entry = { ByController };

    fn counted(&self, counts: NotedCounts) -> Result<NotedCounts, AllocError> {
        match self {
            Entry::Collect(calls) => calls_counted(counts, calls.as_slice()),
            Entry::Peer { .. } | Entry::Off { .. } => Ok(NotedCounts {
                served: one_more(counts.served)?,
                ..counts
            }),
            Entry::Fail => Ok(NotedCounts {
                failed: one_more(counts.failed)?,
                ..counts
            }),
            Entry::Begin => Ok(NotedCounts {
                returned: counts.returned.max(counts.failed),
                ..counts
            }),
            Entry::Finish { .. } => Ok(NotedCounts {
                ended: one_more(counts.ended)?,
                ..counts
            }),
            Entry::Input(_) | Entry::Solve(_) | Entry::Output { .. } => Ok(counts),
            Entry::End | Entry::Dark => Ok(counts),
        }
    }

    fn answer(&self) -> Option<bool> {
        match self {
            Entry::Peer { .. } => Some(true),
            Entry::Off { .. } => Some(false),
            Entry::Begin | Entry::Input(_) | Entry::Solve(_) | Entry::Output { .. } => None,
            Entry::End | Entry::Fail | Entry::Dark | Entry::Finish { .. } => None,
            Entry::Collect(_) => None,
        }
    }
}

impl StationItem for HostEntry {
    ghost entry = { ByHost };

    fn counted(&self, counts: NotedCounts) -> Result<NotedCounts, AllocError> {
        match self {
            HostEntry::Ask { .. } => Ok(NotedCounts {
                asked: one_more(counts.asked)?,
                ..counts
            }),
            HostEntry::Served { .. } => Ok(NotedCounts {
                served: one_more(counts.served)?,
                ..counts
            }),
            HostEntry::Answer { .. } => Ok(NotedCounts {
                ended: one_more(counts.ended)?,
                ..counts
            }),
        }
    }

    fn answer(&self) -> Option<bool> {
        match self {
            HostEntry::Served { .. } => Some(true),
            HostEntry::Ask { .. } | HostEntry::Answer { .. } => None,
        }
    }
}

/// Whether nothing that is counted came before its cause, where so many Replies may be posted.
pub(crate) fn are_caused(noted: NotedCounts, done: DoneCounts, may: usize) -> bool
    ensures { IsTrue result ↔ AreCausedWith may noted done }
{
    done.posted <= noted.asked
        && done.worked_port <= noted.asked_port
        && noted.served <= done.taken
        && done.answered_port <= done.taken_port
        && done.replies <= may as u64
        && noted.ended <= done.over
        && u64::from(done.down) <= noted.failed
        && u64::from(done.joined) <= noted.returned
}

fn post_counted(done: DoneCounts, kind: FrameKind) -> Result<DoneCounts, AllocError>
    ensures { IfOk result (IsDoneAfter done (posting kind ∷ [])) }
{
    match kind {
        FrameKind::Request => Ok(DoneCounts {
            posted: one_more(done.posted)?,
            ..done
        }),
        FrameKind::Reply => Ok(DoneCounts {
            replies: one_more(done.replies)?,
            ..done
        }),
    }
}

fn take_counted(done: DoneCounts, kind: FrameKind, stats: bool) -> Result<DoneCounts, AllocError>
    ensures { IfOk result (IsDoneAfter done (taking kind stats ∷ [])) }
{
    match (kind, stats) {
        (FrameKind::Request, true) => Ok(DoneCounts {
            taken_port: one_more(done.taken_port)?,
            ..done
        }),
        (FrameKind::Request, false) => Ok(DoneCounts {
            taken: one_more(done.taken)?,
            ..done
        }),
        (FrameKind::Reply, _) => Ok(DoneCounts {
            over: one_more(done.over)?,
            ..done
        }),
    }
}

fn work_counted(done: DoneCounts, own: bool) -> Result<DoneCounts, AllocError>
    ensures { IfOk result (IsDoneAfter done (working own)) }
{
    if own {
        Ok(DoneCounts {
            worked_port: one_more(done.worked_port)?,
            over: one_more(done.over)?,
            ..done
        })
    } else {
        Ok(DoneCounts {
            answered_port: one_more(done.answered_port)?,
            ..done
        })
    }
}

fn leave_counted(done: DoneCounts, cause: LeaveCause) -> DoneCounts
    ensures { IsDoneAfter done (leaving cause) result }
{
    match cause {
        LeaveCause::Down(number) => DoneCounts {
            down: number,
            ..done
        },
        LeaveCause::Ended | LeaveCause::Spent => done,
    }
}

/// The counts after an entry of the ring.
pub(crate) fn deed_counted(done: DoneCounts, entry: &RingEntry) -> Result<DoneCounts, AllocError>
    ensures { IfOk result (IsDoneAfter done (doings entry.now)) }
{
    match entry {
        RingEntry::Post { frame, .. } => post_counted(done, frame.kind),
        RingEntry::Take { frame, .. } => take_counted(done, frame.kind, frame.is_for_stats()),
        RingEntry::Local { node, id, .. } => work_counted(done, id.node == *node),
        RingEntry::GiveUp { .. } => Ok(DoneCounts {
            over: one_more(done.over)?,
            ..done
        }),
        RingEntry::Leave { cause, .. } => Ok(leave_counted(done, *cause)),
        RingEntry::Join { .. } => Ok(DoneCounts {
            joined: done.down,
            ..done
        }),
        RingEntry::Send { .. } | RingEntry::Pass { .. } => Ok(done),
    }
}

/// The answers after an entry of a station.
pub(crate) fn answer_on<E: StationItem>(
    answers: &mut Vec<bool>,
    entry: &E,
) -> Result<(), AllocError>
    ensures { OnOk result (answers.new.items
        ≡ answers_after answers.old.items (E.entry entry.now)) }
{
    if let Some(with_reply) = entry.answer() {
        answers.push(with_reply)?;
    }
    Ok(())
}

/// The Requests that were taken after an entry of the ring.
pub(crate) fn take_on(requests: &mut Vec<bool>, entry: &RingEntry) -> Result<(), AllocError>
    ensures { OnOk result
        (requests.new.items ≡ requests_after requests.old.items (entry.now ∷ [])) }
{
    match entry {
        RingEntry::Take { frame, .. } => {
            if let FrameKind::Reply = frame.kind {
                return Ok(());
            }
            requests.push(!frame.is_for_stats())?;
            Ok(())
        }
        RingEntry::Post { .. } | RingEntry::Local { .. } | RingEntry::GiveUp { .. } => Ok(()),
        RingEntry::Send { .. } | RingEntry::Pass { .. } | RingEntry::Leave { .. } => Ok(()),
        RingEntry::Join { .. } => Ok(()),
    }
}
