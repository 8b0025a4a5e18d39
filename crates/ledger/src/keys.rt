//! The keys under which the registers keep a trade.
//!
//! The keys and the record are types of other crates, so no `From` between them can stand here.
ghost use Rattle.std.specs.Prelude.{◌≡◌};
ghost use Rattle.ledger.specs.Keys.{price_key, execution_key, publication_key};

use register::execution::ExecutionKey;
use register::price::PriceKey;
use register::publication::PublicationKey;
use rulebook::record::Record;

/// By price, among the trades of its day and of the security at that place.
pub fn price_key(trade: &Record, security: u8) -> PriceKey
    ensures { result ≡ price_key security trade.now }
{
    PriceKey {
        day: trade.code.day,
        security,
        price: trade.report.price,
        serial: trade.code.serial,
    }
}

/// By execution moment, among the trades of its day and of the security at that place.
pub fn execution_key(trade: &Record, security: u8) -> ExecutionKey
    ensures { result ≡ execution_key security trade.now }
{
    ExecutionKey {
        day: trade.code.day,
        security,
        moment: trade.report.execution,
        serial: trade.code.serial,
    }
}

/// By publication moment.
pub fn publication_key(trade: &Record) -> PublicationKey
    ensures { result ≡ publication_key trade.now }
{
    PublicationKey {
        moment: trade.moment,
        day: trade.code.day,
        serial: trade.code.serial,
    }
}
