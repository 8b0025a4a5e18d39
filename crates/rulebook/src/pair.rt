//! Two different histories that the market cannot tell apart.
ghost use Rattle.calendar.specs.Rule.{by_rule};
ghost use Rattle.rulebook.specs.Pair.{DifferingPair};

/// Answers nothing; its contract states that two histories that differ at an entry and at an amendment are alike but for trades that are
/// published in neither.
pub fn differing_pair()
    ensures { DifferingPair by_rule }
{}
