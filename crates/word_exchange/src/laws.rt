//! What holds of the rows of wired drops, and of the words that wires bring.
ghost use Rattle.word_exchange.specs.Exchange.{ExchangesAreCounted, RepetitionsExchange, RowsStay};
ghost use Rattle.word_exchange.specs.Moments.{RepetitionsGoOn};
ghost use Rattle.word_exchange.specs.Refresh.{SendingsFollow};
ghost use Rattle.word_exchange.specs.Running.{ReadersFollow};
ghost use Rattle.word_exchange.specs.Scripts.{RowsFollowRules};

/// What a wire's from drop sends follows the moments of a run.
pub fn sendings_follow()
    ensures { SendingsFollow }
{}

/// Repetitions keep the lists of all controllers and rings, and add to them.
pub fn repetitions_go_on()
    ensures { RepetitionsGoOn }
{}

/// Rows that are there stay as moments go on.
pub fn rows_stay()
    ensures { RowsStay }
{}

/// A repetition makes at most as many input exchanges of a drop as a full scan has.
pub fn repetitions_exchange()
    ensures { RepetitionsExchange }
{}

/// The input exchanges of a drop in a history are those that its controller has counted.
pub fn exchanges_are_counted()
    ensures { ExchangesAreCounted }
{}

/// A reader that has read all of a run reads what came to it.
pub fn readers_follow()
    ensures { ReadersFollow }
{}

/// Rows that are fed to a plant come last to the scripts that a rule gives it.
pub fn rows_follow_rules()
    ensures { RowsFollowRules }
{}
