//! That one answer is due.
ghost use Rattle.same_text.specs.OneAnswer.{OneAnswerSame};

/// No two answers are due where it is asked whether two controllers do the same.
pub fn one_answer_same()
    ensures { OneAnswerSame }
{}
