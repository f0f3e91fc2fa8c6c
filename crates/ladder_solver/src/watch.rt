//! How many networks a scan can begin, and how the solve of a segment ends.
ghost use Rattle.std.specs.Prelude.{◌≡◌, ◌↔◌};
ghost use Rattle.ladder_solver.specs.declared.watch.SolveEnd.TheVariants.{Watchdog};

/// The networks left to the watchdog. Each network that begins takes 1; where that gives 0 the
/// solve ends before the network is solved.
#[derive(Clone, Copy, Debug, PartialEq, Eq)]
pub struct Watch {
    pub left: u32,
}

/// How the solve of a segment ends.
#[derive(Clone, Copy, Debug, PartialEq, Eq)]
pub enum SolveEnd {
    Done,
    /// No network was left to the watchdog.
    Watchdog,
}

impl SolveEnd {
    /// The end of a solve that leaves so many networks.
    pub(crate) fn behind(left: u32) -> SolveEnd
        ensures { (result ≡ Watchdog) ↔ (left ≡ 0) }
    {
        if left == 0 {
            return SolveEnd::Watchdog;
        }
        SolveEnd::Done
    }
}
