//! What publication and the sheets need of a report.
ghost use Rattle.std.specs.Prelude.{◌≡◌};
ghost use Rattle.report.specs.Published.{may_defer, trade_of, makes_prices};

use super::report::{Capacity, Report, Waiver};
use super::security::Security;
use deferral::trade::Trade;

impl Report {
    /// May publication be deferred? Not with NODEF, ACTX or capacity AOTC.
    pub fn may_defer(&self) -> bool
        ensures { result ≡ may_defer self.now }
    {
        !(self.nodef || self.actx || self.capacity == Capacity::Aotc)
    }

    /// The trade that a schedule and a calendar judge.
    pub fn trade(&self, security: &Security) -> Trade
        ensures { result ≡ trade_of self.now security.now }
    {
        Trade {
            class: security.class,
            daily: security.daily,
            price: u64::from(self.price),
            quantity: u64::from(self.quantity),
            execution: self.execution,
            deferrable: self.may_defer(),
        }
    }

    /// Does the trade count for opening, high, low and last? Not with BENC, SDIV or the waiver PRIC.
    pub fn makes_prices(&self) -> bool
        ensures { result ≡ makes_prices self.now }
    {
        !(self.benc || self.sdiv || self.waiver == Some(Waiver::Pric))
    }
}
