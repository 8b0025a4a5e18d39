//! The worked examples of the rules.
ghost use Rattle.calendar.specs.Examples.{Examples};

/// Answers nothing; its contract states the worked examples as facts.
pub fn worked_examples()
    ensures { Examples }
{}
