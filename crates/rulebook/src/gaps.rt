//! Codes and line numbers have no gaps.
ghost use Rattle.rulebook.specs.Gaps.{NoGaps};

/// Stands on its contract: after every lawful history the serials of each day's trades, and the numbers of each day's lines, count 1, 2, 3 and so on.
#[tactic(auto, using(crate::proofs::Throughout::no_gaps))]
pub fn no_gaps()
    ensures { NoGaps }
{}
