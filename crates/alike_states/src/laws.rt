//! What solves of segments do not tell apart, and what they leave as it is.
ghost use Rattle.alike_states.specs.Alone.{TablesStayAlone};
ghost use Rattle.alike_states.specs.Counters.{EdgesStayElsewhere};
ghost use Rattle.alike_states.specs.Later.{SolvesAskNoHour};

/// A solve does the same whatever the hour: what it asks of the clock is the same some whole seconds
/// later.
pub fn solves_ask_no_hour()
    ensures { SolvesAskNoHour }
{}

/// A solve changes edge bits at counters alone.
pub fn edges_stay_elsewhere()
    ensures { EdgesStayElsewhere }
{}

/// Where there are no message blocks, a solve leaves their table as it is.
pub fn tables_stay_alone()
    ensures { TablesStayAlone }
{}
