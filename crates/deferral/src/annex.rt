//! The schedule of Annex II of Regulation (EU) 2017/587.
ghost use Rattle.std.specs.Prelude.{◌≡◌, ◌≤◌, List};
ghost use Rattle.std.proofs.Common.{ap, subst, ◌∙◌};
ghost use Rattle.deferral.specs.Amounts.{highest, Step};
ghost use Rattle.deferral.specs.Annex.{annex_two, row_steps, equities, etfs, steps_for};
ghost use Rattle.deferral.specs.Rows.{steps_of, first_serving};
ghost use Rattle.deferral.specs.declared.question.Class.{Class};
ghost use Rattle.deferral.specs.Tiers.{tier_number};
ghost use Rattle.deferral.specs.Highest.{highest_rises};

use super::question::{Class, Question};
use super::row::{Row, UNITS};
use super::schedule::Schedule;
use super::tier::Tier;

/// The rows for equities, by the least average daily turnover that they serve, the largest first; amounts in EUR.
const EQUITIES: [Row; 8] = [
    Row {
        from: 100_000_001,
        first: 10_000_000,
        second: 20_000_000,
        third: 35_000_000,
        top: Tier::Three,
    },
    Row {
        from: 50_000_001,
        first: 7_000_000,
        second: 15_000_000,
        third: 25_000_000,
        top: Tier::Three,
    },
    Row {
        from: 25_000_001,
        first: 5_000_000,
        second: 10_000_000,
        third: 12_000_000,
        top: Tier::Three,
    },
    Row {
        from: 5_000_001,
        first: 2_500_000,
        second: 4_000_000,
        third: 5_000_000,
        top: Tier::Three,
    },
    Row {
        from: 1_000_001,
        first: 450_000,
        second: 750_000,
        third: 1_000_000,
        top: Tier::Three,
    },
    Row {
        from: 500_001,
        first: 75_000,
        second: 150_000,
        third: 225_000,
        top: Tier::Three,
    },
    Row {
        from: 100_001,
        first: 30_000,
        second: 80_000,
        third: 120_000,
        top: Tier::Three,
    },
    Row {
        from: 50_000,
        first: 15_000,
        second: 30_000,
        third: 50_000,
        top: Tier::Three,
    },
];

/// The row for what no other serves.
const SMALLEST: Row = Row {
    from: 0,
    first: 7_500,
    second: 15_000,
    third: 25_000,
    top: Tier::Four,
};

/// The schedule of Annex II.
#[derive(Clone, Copy)]
pub struct AnnexTwo;

/// The first of the rows that serves that average daily turnover, or the smallest where none does.
fn first_serving(rows: &[Row], daily: u64) -> Row
    ensures { steps_of result ≡ first_serving rows.now daily }
{
    rows.iter()
        .find(|row| row.from <= daily)
        .copied()
        .unwrap_or(SMALLEST)
}

/// The row that serves an equity of that average daily turnover.
fn row_for(daily: u64) -> Row
    ensures { steps_of result ≡ row_steps equities daily }
{
    first_serving(&EQUITIES, daily)
}

// Each amount is compared under its name: one chain over a list of steps would put a tier beside each amount in every row.
/// The tier of an ETF.
fn etf_tier(turnover: u64) -> Tier
    ensures { result ≡ highest etfs turnover }
{
    let euro = turnover / UNITS;
    if euro >= 50_000_000 {
        Tier::Three
    } else if euro >= 10_000_000 {
        Tier::One
    } else {
        Tier::Zero
    }
}

impl Schedule for AnnexTwo {
    ghost tier = { λ _. annex_two };

    ghost rises = { λ s q r alike h.
        let same : steps_for q.class q.daily ≡ steps_for r.class r.daily =
        ap (λ (c : Class). steps_for c q.daily) alike.class ∙ ap (steps_for r.class) alike.daily in
        subst (λ (ss : List Step). tier_number (highest (steps_for q.class q.daily) q.turnover) ≤ tier_number (highest ss r.turnover)) same
        (highest_rises (steps_for q.class q.daily) q.turnover r.turnover h) };

    fn tier_of(&self, question: Question) -> Tier {
        match question.class {
            Class::Equity => row_for(question.daily).tier(question.turnover),
            Class::Etf => etf_tier(question.turnover),
        }
    }
}
