//! A day that falls out has no waiting trade, and nothing that is due waits.
ghost use Rattle.rulebook.specs.FallsOut.{NoneWaits, NothingDue};

/// After every lawful history, where a day would now be opened, no trade of a day that is then held no longer waits.
#[tactic(auto, using(crate::proofs::FallsOut::none_waits))]
pub fn none_waits()
    ensures { NoneWaits }
{}

/// After every lawful history nothing is due that is not published.
#[tactic(auto, using(crate::proofs::FallsOut::nothing_due))]
pub fn nothing_due()
    ensures { NothingDue }
{}
