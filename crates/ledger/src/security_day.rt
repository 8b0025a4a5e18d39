//! The keys of a security's day.
ghost use Rattle.std.specs.Prelude.{◌≡◌, ◌+◌, ◌<◌, ℕ};
ghost use Rattle.ledger.specs.SheetKeys.{price_start, execution_start};

use super::stretch::Stretch;
use register::Key;
use register::execution::ExecutionKey;
use register::price::PriceKey;

/// A day, and the place of a security.
#[derive(Clone, Copy)]
pub struct SecurityDay {
    pub day: u32,
    pub security: u8,
}

/// A kind of key under which a sheet keeps its trades, by day and security first.
pub(crate) trait SheetKey: Key {
    ghost starts: { ℕ → ℕ → Self };

    /// Where the keys of a security's day start.
    fn start(of: SecurityDay) -> Self
        ensures { result ≡ starts of.day of.security };
}

impl SheetKey for PriceKey {
    ghost starts = { price_start };

    fn start(of: SecurityDay) -> PriceKey {
        PriceKey {
            day: of.day,
            security: of.security,
            price: 0,
            serial: 0,
        }
    }
}

impl SheetKey for ExecutionKey {
    ghost starts = { execution_start };

    fn start(of: SecurityDay) -> ExecutionKey {
        ExecutionKey {
            day: of.day,
            security: of.security,
            moment: 0,
            serial: 0,
        }
    }
}

impl SecurityDay {
    /// The keys of the security's day. The last place of all has none after it.
    pub(crate) fn stretch<K: SheetKey>(self) -> Stretch<K>
        ensures low { result.low ≡ K.starts self.day self.security }
        ensures high { self.security < 255 → result.high ≡ K.starts self.day (self.security + 1) }
    {
        Stretch {
            low: K::start(self),
            high: K::start(SecurityDay {
                security: self.security.saturating_add(1),
                ..self
            }),
        }
    }
}
