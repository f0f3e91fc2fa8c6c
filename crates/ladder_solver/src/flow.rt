//! Where a solve goes on behind an element or a network.
ghost use Rattle.std.specs.Prelude.{◌≡◌, ◌==◌, if◌then◌else◌};
ghost use Rattle.plant_types.specs.Power.{no_output};
ghost use Rattle.ladder_solver.specs.Flow.{GoesOn, Stopped, is_going};

use plant_types::NodePower;

/// Where a solve goes on behind an element or a network.
#[derive(Clone, Copy)]
pub(crate) enum Flow {
    /// With the next place and the next network.
    GoesOn,
    /// As the number of a SKP says: 0 skips all networks that are left, 1 none of them.
    Skips(u16),
    /// In the caller of the subroutine.
    Returns,
    /// Nowhere: no network is left to the watchdog.
    Stopped,
}

impl Flow {
    /// Whether the network goes on with its next place.
    pub fn goes_on(self) -> bool
        ensures { result ≡ is_going self }
    {
        matches!(self, Flow::GoesOn)
    }

    /// Where a caller goes on behind its subroutine, by the networks left to the watchdog.
    pub fn behind(left: u32) -> Flow
        ensures { result ≡ (if left == 0 then Stopped else GoesOn) }
    {
        if left == 0 {
            return Flow::Stopped;
        }
        Flow::GoesOn
    }
}

/// What an element gives: the power at its output nodes, and where the solve goes on.
#[derive(Clone, Copy)]
pub(crate) struct Solved {
    pub outputs: NodePower,
    pub flow: Flow,
}

impl Solved {
    /// The solve goes on.
    pub fn with(outputs: NodePower) -> Solved
        ensures { result ≡ record { outputs = outputs; flow = GoesOn } }
    {
        Solved {
            outputs,
            flow: Flow::GoesOn,
        }
    }

    /// An element without outputs directs the solve where it has power.
    pub fn directed(power: bool, flow: Flow) -> Solved
        ensures { result ≡ record { outputs = no_output; flow = (if power then flow else GoesOn) } }
    {
        Solved {
            outputs: NodePower::OFF,
            flow: if power { flow } else { Flow::GoesOn },
        }
    }
}
