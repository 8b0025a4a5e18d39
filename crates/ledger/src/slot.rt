//! The totals of a held day.
//!
//! `match sheet` in `on` and `write` is the one place that chooses a sheet's totals.
ghost use Rattle.std.specs.Prelude.{◌≡◌};
ghost use Rattle.ledger.specs.Totalled.{no_slot, on, written_on};

use super::totals::Totals;
use report::figures::Sheet;

/// The totals of a security in a held day, on the full and on the public sheet.
#[derive(Clone, Copy)]
pub struct Slot {
    pub full: Totals,
    pub public: Totals,
}

impl Slot {
    /// No trades, on both sheets.
    pub(crate) fn none() -> Slot
        ensures { result ≡ no_slot }
    {
        Slot {
            full: Totals::none(),
            public: Totals::none(),
        }
    }

    /// The totals on a sheet.
    pub(crate) fn on(&self, sheet: Sheet) -> Totals
        ensures { result ≡ on sheet self.now }
    {
        match sheet {
            Sheet::Full => self.full,
            Sheet::Public => self.public,
        }
    }

    /// Writes the totals on a sheet.
    pub(crate) fn write(&mut self, sheet: Sheet, totals: Totals)
        ensures { self.new ≡ written_on sheet totals self.old }
    {
        match sheet {
            Sheet::Full => self.full = totals,
            Sheet::Public => self.public = totals,
        }
    }
}
