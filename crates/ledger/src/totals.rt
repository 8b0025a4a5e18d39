//! Totals of the trades that a sheet counts.
ghost use Rattle.std.specs.Prelude.{◌≡◌};
ghost use Rattle.ledger.specs.Totals.{no_trades, totals_of_one, with_report, without_report};

use report::report::Report;

/// Number, volume and turnover of some trades.
#[derive(Clone, Copy, Default)]
pub struct Totals {
    pub number: u32,
    pub volume: u64,
    pub turnover: u64,
}

// `plus` and `minus` are two operations on numbers of two sizes, and one function of both is no plainer.
impl Totals {
    /// The totals of no trade.
    pub fn none() -> Totals
        ensures { result ≡ no_trades }
    {
        Totals::default()
    }

    /// The totals of one trade. Its turnover is price times quantity.
    fn of_one(report: &Report) -> Totals
        ensures { result ≡ totals_of_one report.now }
    {
        Totals {
            number: 1,
            volume: u64::from(report.quantity),
            turnover: u64::from(report.price) * u64::from(report.quantity),
        }
    }

    /// The totals with one trade more. A sum past the largest number there is becomes that number.
    pub fn plus(self, report: &Report) -> Totals
        ensures { result ≡ with_report self report.now }
    {
        let one = Totals::of_one(report);
        Totals {
            number: self.number.saturating_add(one.number),
            volume: self.volume.saturating_add(one.volume),
            turnover: self.turnover.saturating_add(one.turnover),
        }
    }

    /// The totals with one trade less. None falls below 0.
    pub fn minus(self, report: &Report) -> Totals
        ensures { result ≡ without_report self report.now }
    {
        let one = Totals::of_one(report);
        Totals {
            number: self.number.saturating_sub(one.number),
            volume: self.volume.saturating_sub(one.volume),
            turnover: self.turnover.saturating_sub(one.turnover),
        }
    }
}
