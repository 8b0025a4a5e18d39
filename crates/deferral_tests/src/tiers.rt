//! The tiers of the schedules, at each amount and one unit below it.
use deferral::annex::AnnexTwo;
use deferral::flat::Flat;
use deferral::question::{Class, Question};
use deferral::schedule::Schedule;
use deferral::tier::Tier;
use refusal::Refusal;
use std::test::Fail;

/// An average daily turnover, the amounts of its row in EUR, and the row's top tier.
struct Row {
    daily: u64,
    amounts: [u64; 3],
    top: Tier,
}

const ROWS: [Row; 18] = [
    Row {
        daily: 999_999_999_999,
        amounts: [10_000_000, 20_000_000, 35_000_000],
        top: Tier::Three,
    },
    Row {
        daily: 100_000_001,
        amounts: [10_000_000, 20_000_000, 35_000_000],
        top: Tier::Three,
    },
    Row {
        daily: 100_000_000,
        amounts: [7_000_000, 15_000_000, 25_000_000],
        top: Tier::Three,
    },
    Row {
        daily: 50_000_001,
        amounts: [7_000_000, 15_000_000, 25_000_000],
        top: Tier::Three,
    },
    Row {
        daily: 50_000_000,
        amounts: [5_000_000, 10_000_000, 12_000_000],
        top: Tier::Three,
    },
    Row {
        daily: 25_000_001,
        amounts: [5_000_000, 10_000_000, 12_000_000],
        top: Tier::Three,
    },
    Row {
        daily: 25_000_000,
        amounts: [2_500_000, 4_000_000, 5_000_000],
        top: Tier::Three,
    },
    Row {
        daily: 5_000_001,
        amounts: [2_500_000, 4_000_000, 5_000_000],
        top: Tier::Three,
    },
    Row {
        daily: 5_000_000,
        amounts: [450_000, 750_000, 1_000_000],
        top: Tier::Three,
    },
    Row {
        daily: 1_000_001,
        amounts: [450_000, 750_000, 1_000_000],
        top: Tier::Three,
    },
    Row {
        daily: 1_000_000,
        amounts: [75_000, 150_000, 225_000],
        top: Tier::Three,
    },
    Row {
        daily: 500_001,
        amounts: [75_000, 150_000, 225_000],
        top: Tier::Three,
    },
    Row {
        daily: 500_000,
        amounts: [30_000, 80_000, 120_000],
        top: Tier::Three,
    },
    Row {
        daily: 100_001,
        amounts: [30_000, 80_000, 120_000],
        top: Tier::Three,
    },
    Row {
        daily: 100_000,
        amounts: [15_000, 30_000, 50_000],
        top: Tier::Three,
    },
    Row {
        daily: 50_000,
        amounts: [15_000, 30_000, 50_000],
        top: Tier::Three,
    },
    Row {
        daily: 49_999,
        amounts: [7_500, 15_000, 25_000],
        top: Tier::Four,
    },
    Row {
        daily: 0,
        amounts: [7_500, 15_000, 25_000],
        top: Tier::Four,
    },
];

fn tier_at<S: Schedule>(schedule: &S, class: Class, daily: u64, turnover: u64) -> Tier {
    schedule.tier_of(Question {
        class,
        daily,
        turnover,
    })
}

/// The tiers one unit below an amount in EUR, and at it.
fn edge<S: Schedule>(schedule: &S, class: Class, daily: u64, amount: u64) -> (Tier, Tier) {
    let units = amount.saturating_mul(10_000);
    (
        tier_at(schedule, class, daily, units.saturating_sub(1)),
        tier_at(schedule, class, daily, units),
    )
}

#[test]
fn rows_for_equities(rt: HostRuntime) {
    for row in &ROWS {
        let [first, second, third] = row.amounts;
        for (amount, tiers) in [
            (first, (Tier::Zero, Tier::One)),
            (second, (Tier::One, Tier::Two)),
            (third, (Tier::Two, row.top)),
        ] {
            assert_eq!(rt; edge(&AnnexTwo, Class::Equity, row.daily, amount), tiers);
        }
    }
    assert_eq!(rt; tier_at(&AnnexTwo, Class::Equity, 0, u64::MAX), Tier::Four);
}

#[test]
fn amounts_for_etfs(rt: HostRuntime) {
    assert_eq!(rt;
        edge(&AnnexTwo, Class::Etf, 0, 10_000_000),
        (Tier::Zero, Tier::One)
    );
    assert_eq!(rt;
        edge(&AnnexTwo, Class::Etf, 999_999_999_999, 50_000_000),
        (Tier::One, Tier::Three)
    );
}

#[test]
fn flat_amounts(rt: HostRuntime) -> Result<(), Fail> {
    let flat = Flat::new(1, 5, 5, 100_000_000_000).map_err(|_| Fail::new("refused"))?;
    assert_eq!(rt; edge(&flat, Class::Equity, 7, 1), (Tier::Zero, Tier::One));
    assert_eq!(rt; edge(&flat, Class::Etf, 7, 5), (Tier::One, Tier::Three));
    assert_eq!(rt;
        edge(&flat, Class::Etf, 0, 100_000_000_000),
        (Tier::Three, Tier::Four)
    );
    Ok(())
}

#[test]
fn flat_amounts_refused(rt: HostRuntime) {
    assert!(rt; matches!(Flat::new(0, 5, 6, 7), Err(Refusal::AmountOutOfRange)));
    assert!(rt;
        matches!(
            Flat::new(1, 2, 3, 100_000_000_001),
            Err(Refusal::AmountOutOfRange)
        )
    );
    assert!(rt; matches!(Flat::new(2, 1, 3, 0), Err(Refusal::AmountOutOfRange)));
    assert!(rt; matches!(Flat::new(2, 1, 3, 4), Err(Refusal::AmountsFall)));
    assert!(rt; matches!(Flat::new(1, 3, 2, 4), Err(Refusal::AmountsFall)));
    assert!(rt; matches!(Flat::new(1, 2, 4, 3), Err(Refusal::AmountsFall)));
}
