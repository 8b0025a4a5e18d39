//! The worked example.
ghost use Rattle.calendar.specs.Rule.{by_rule};
ghost use Rattle.rulebook.specs.Example.{WorkedExample};

/// Answers nothing; its contract states the worked example of two trades on 8 May 2018 as facts.
pub fn worked_example()
    ensures { WorkedExample by_rule }
{}
