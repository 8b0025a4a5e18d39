//! The larger trade is never earlier.
ghost use Rattle.rulebook.specs.Larger.{LargerEverywhere};

/// After every lawful history, of two reports alike but for price and quantity that would now be taken, the one of larger turnover gets no earlier moment.
pub fn larger_never_earlier()
    ensures { LargerEverywhere }
{}
