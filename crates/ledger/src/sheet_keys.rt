//! The keys of the trades that a sheet counts and that make prices, by price and by execution.
ghost use Rattle.std.specs.Prelude.{◌≡◌};
ghost use Rattle.rulebook.specs.Sheets.{figures_of};
ghost use Rattle.ledger.specs.Reading.{ReadsOff, opening_of, last_of};
ghost use Rattle.ledger.specs.SheetKeys.{SheetStands, NoKeys, CountedIn, CountedOut, DroppedBefore, Lent};

use super::keys::{execution_key, price_key};
use super::security_day::{SecurityDay, SheetKey};
use register::Register;
use register::execution::ExecutionKey;
use register::price::PriceKey;
use rulebook::record::Record;

/// A register by price and one by execution.
#[derive(Clone, Copy)]
pub struct SheetKeys {
    pub prices: Register<PriceKey>,
    pub executions: Register<ExecutionKey>,
}

/// The memory that the two registers are lent at each call.
#[derive(Drop)]
pub struct SheetMemory<'a> {
    pub prices: &'a mut [PriceKey],
    pub executions: &'a mut [ExecutionKey],
}

// Any memory may come in any call, so that the registers stand over it is a premise of each clause and no invariant.
// What `put` and `take_out` answer is known from what the registers hold, as each clause says it: nothing is refused that the sheet counts.
// Each call is made once for each register: a helper over any kind of key would say each clause of the register again, for two calls.
impl SheetKeys {
    /// Registers that keep no key.
    pub fn new() -> SheetKeys
        ensures { NoKeys result }
    {
        SheetKeys {
            prices: Register::new(),
            executions: Register::new(),
        }
    }

    /// Puts both keys of a trade that makes prices, of the security at that place.
    pub fn count_in(&mut self, memory: &mut SheetMemory, trade: &Record, security: u8)
        ensures counted { SheetStands self.old memory.old → CountedIn self.old memory.old self.new memory.new security trade.now }
        ensures lent { Lent memory.old memory.new }
    {
        if trade.report.makes_prices() {
            let _ = self.prices.put(memory.prices, price_key(trade, security));
            let _ = self
                .executions
                .put(memory.executions, execution_key(trade, security));
        }
    }

    /// Takes both keys of a trade out.
    pub fn count_out(&mut self, memory: &mut SheetMemory, trade: &Record, security: u8)
        ensures counted { SheetStands self.old memory.old → CountedOut self.old memory.old self.new memory.new security trade.now }
        ensures lent { Lent memory.old memory.new }
    {
        if trade.report.makes_prices() {
            let _ = self
                .prices
                .take_out(memory.prices, price_key(trade, security));
            let _ = self
                .executions
                .take_out(memory.executions, execution_key(trade, security));
        }
    }

    /// Drops the keys of all days before `day`.
    pub fn drop_before(&mut self, memory: &mut SheetMemory, day: u32)
        ensures dropped { SheetStands self.old memory.old → DroppedBefore self.old memory.old self.new memory.new day }
        ensures lent { Lent memory.old memory.new }
    {
        let first = SecurityDay { day, security: 0 };
        self.prices
            .drop_before(memory.prices, PriceKey::start(first));
        self.executions
            .drop_before(memory.executions, ExecutionKey::start(first));
    }

    /// The lowest price of a security's day.
    pub fn low(&self, memory: &SheetMemory, of: SecurityDay) -> Option<u32>
        ensures { ReadsOff (λ ts. (figures_of ts).low) self.now memory.now of.day of.security result }
    {
        of.stretch()
            .first(&self.prices, memory.prices)
            .map(|key| key.price)
    }

    /// The highest.
    pub fn high(&self, memory: &SheetMemory, of: SecurityDay) -> Option<u32>
        ensures { ReadsOff (λ ts. (figures_of ts).high) self.now memory.now of.day of.security result }
    {
        of.stretch()
            .last(&self.prices, memory.prices)
            .map(|key| key.price)
    }

    /// The serial of the trade of a security's day that was executed first.
    pub fn opening_serial(&self, memory: &SheetMemory, of: SecurityDay) -> Option<u32>
        ensures { ReadsOff opening_of self.now memory.now of.day of.security result }
    {
        of.stretch()
            .first(&self.executions, memory.executions)
            .map(|key| key.serial)
    }

    /// The serial of the trade that was executed last.
    pub fn last_serial(&self, memory: &SheetMemory, of: SecurityDay) -> Option<u32>
        ensures { ReadsOff last_of self.now memory.now of.day of.security result }
    {
        of.stretch()
            .last(&self.executions, memory.executions)
            .map(|key| key.serial)
    }
}
