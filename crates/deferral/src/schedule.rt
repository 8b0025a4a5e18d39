//! What a deferral schedule is.
ghost use Rattle.std.specs.Prelude.{◌≡◌, ◌≤◌};
ghost use Rattle.deferral.specs.Tiers.{tier_number, Alike};
ghost use Rattle.deferral.specs.declared.question.Question.{Question};
ghost use Rattle.deferral.specs.declared.tier.Tier.{Tier};

use super::question::Question;
use super::tier::Tier;

/// A schedule: a tier for each question. With all else fixed, the tier never falls as turnover grows.
pub trait Schedule {
    ghost tier: { Self → Question → Tier };

    /// The tier that the schedule gives.
    fn tier_of(&self, question: Question) -> Tier
        ensures { result ≡ tier self.now question };

    ghost rises: { (s : Self) (q r : Question) → Alike q r → q.turnover ≤ r.turnover → tier_number (tier s q) ≤ tier_number (tier s r) };
}
