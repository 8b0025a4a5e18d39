//! A trade as far as its publication goes.
use super::question::Class;
use super::tier::Tier;

/// A trade: its security's class and average daily turnover in EUR, price in units of 0.0001 EUR, quantity, execution moment,
/// and whether its publication may be deferred.
#[derive(Clone, Copy, PartialEq, Eq, Debug)]
pub struct Trade {
    pub class: Class,
    pub daily: u64,
    pub price: u64,
    pub quantity: u64,
    pub execution: u64,
    pub deferrable: bool,
}

/// A trade's tier, and the moment at which the market may see it.
#[derive(Clone, Copy, PartialEq, Eq, Debug)]
pub struct Publication {
    pub tier: Tier,
    pub moment: u64,
}
