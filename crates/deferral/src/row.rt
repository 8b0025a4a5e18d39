//! A row of a table of amounts.
ghost use Rattle.std.specs.Prelude.{◌≡◌, ◌≤◌};
ghost use Rattle.deferral.specs.Tiers.{tier_number};

use super::tier::Tier;

/// A EUR has so many units of turnover.
pub(crate) const UNITS: u64 = 10_000;

/// The least average daily turnover that the row serves, three amounts in EUR, and the tier that the last opens, which is no lower
/// than those of the others.
#[derive(Clone, Copy)]
pub(crate) struct Row {
    pub(crate) from: u64,
    pub(crate) first: u64,
    pub(crate) second: u64,
    pub(crate) third: u64,
    pub(crate) top: Tier,
    ghost highest_last: { 2 ≤ tier_number top },
}

impl Row {
    ghost use Rattle.deferral.specs.Amounts.{highest};
    ghost use Rattle.deferral.specs.Rows.{steps_of};

    /// The highest tier that the turnover reaches.
    pub(crate) fn tier(&self, turnover: u64) -> Tier
        ensures { result ≡ highest (steps_of self.now) turnover }
    {
        // By name, as in `etf_tier`: a list of steps would put a tier beside each amount in every row.
        let euro = turnover / UNITS;
        if euro >= self.third {
            self.top
        } else if euro >= self.second {
            Tier::Two
        } else if euro >= self.first {
            Tier::One
        } else {
            Tier::Zero
        }
    }
}
