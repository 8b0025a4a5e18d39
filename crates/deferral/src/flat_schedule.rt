//! Making a flat schedule, and the tiers that it gives.
ghost use Rattle.std.specs.Prelude.{◌≡◌, [], ◌∷◌};
ghost use Rattle.std.specs.List.{list_all};
ghost use Rattle.std.specs.Result.{result_map_both};
ghost use Rattle.refusal.specs.Grounds.{unless};
ghost use Rattle.deferral.specs.Amounts.{highest};
ghost use Rattle.deferral.specs.Flat.{in_range, flat_ground, flat_steps, amounts_of};
ghost use Rattle.deferral.specs.Highest.{highest_rises};

use super::flat::Flat;
use super::question::Question;
use super::row::UNITS;
use super::schedule::Schedule;
use super::tier::Tier;
use refusal::Refusal;

/// The largest amount of a flat schedule, in EUR.
const LARGEST: u64 = 100_000_000_000;

fn is_in_range(amount: u64) -> bool
    ensures { result ≡ in_range amount }
{
    (1..=LARGEST).contains(&amount)
}

fn are_in_range(amounts: &[u64]) -> bool
    ensures { result ≡ list_all in_range amounts.now }
{
    amounts.iter().all(|amount| is_in_range(*amount))
}

impl Flat {
    /// The schedule of four amounts in EUR, for tiers 1 to 4.
    pub fn new(first: u64, second: u64, third: u64, fourth: u64) -> Result<Flat, Refusal>
        ensures { result_map_both amounts_of (λ e. e) result ≡ unless (flat_ground first second third fourth) (first ∷ second ∷ third ∷ fourth ∷ []) }
    {
        if !are_in_range(&[first, second, third, fourth]) {
            return Err(Refusal::AmountOutOfRange);
        }
        // Compared by name, first to last.
        if first > second || second > third || third > fourth {
            return Err(Refusal::AmountsFall);
        }
        Ok(Flat {
            first,
            second,
            third,
            fourth,
        })
    }
}

impl Schedule for Flat {
    ghost tier = { λ s q. highest (flat_steps s.first s.second s.third s.fourth) q.turnover };

    ghost rises = { λ s q r alike h. highest_rises (flat_steps s.first s.second s.third s.fourth) q.turnover r.turnover h };

    fn tier_of(&self, question: Question) -> Tier {
        // By name, as in `Row::tier`: a list of steps would put a tier beside each of the four amounts.
        let euro = question.turnover / UNITS;
        if euro < self.first {
            Tier::Zero
        } else if euro < self.second {
            Tier::One
        } else if euro < self.third {
            Tier::Two
        } else if euro < self.fourth {
            Tier::Three
        } else {
            Tier::Four
        }
    }
}
