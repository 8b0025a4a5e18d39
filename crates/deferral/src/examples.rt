//! The worked examples of the schedules and of publication.
ghost use Rattle.deferral.specs.Examples.{Examples, LargerWouldComeFirst};

/// Answers nothing; its contract states the worked examples as facts, and why tier 3 has its two-hour rule.
pub fn worked_examples()
    ensures examples { Examples }
    ensures two_hours { LargerWouldComeFirst }
{}
