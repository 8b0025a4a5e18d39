//! Reports of trades.
use super::security::Segment;
use identifier::{Counterparty, Isin, Member};

/// Did the member buy or sell?
#[derive(Clone, Copy, PartialEq, Eq, Debug)]
pub enum Side {
    Buy,
    Sell,
}

/// Did the member deal on own account, or as agent (AOTC)?
#[derive(Clone, Copy, PartialEq, Eq, Debug)]
pub enum Capacity {
    Deal,
    Aotc,
}

/// A waiver of pre-trade transparency: negotiated in a liquid security, in an illiquid one, on a price not of the market, large in
/// scale.
#[derive(Clone, Copy, PartialEq, Eq, Debug)]
pub enum Waiver {
    Nliq,
    Oilq,
    Pric,
    Lis,
}

/// The exchange's own flags: after hours, broker to broker, connected party, late, riskless principal, special settlement.
#[derive(Clone, Copy, PartialEq, Eq, Debug, Default)]
pub struct Flags {
    pub ah: bool,
    pub bb: bool,
    pub cp: bool,
    pub lt: bool,
    pub rp: bool,
    pub ss: bool,
}

/// A report as a member sends it, right or wrong.
#[derive(Clone, Copy)]
pub struct Report {
    pub member: Member,
    pub isin: Isin,
    pub segment: Segment,
    pub side: Side,
    /// In units of 0.0001 EUR.
    pub price: u32,
    pub quantity: u32,
    pub execution: u64,
    pub capacity: Capacity,
    /// Publication is not to be deferred.
    pub nodef: bool,
    /// An agency cross.
    pub actx: bool,
    /// A benchmark trade.
    pub benc: bool,
    /// A special dividend trade.
    pub sdiv: bool,
    pub waiver: Option<Waiver>,
    pub flags: Flags,
    pub counterparty: Counterparty,
}

/// A trade's code (TIC): the day on which it was taken, and its serial among that day's trades, from 1.
#[derive(Clone, Copy, PartialEq, Eq, Debug)]
pub struct Code {
    pub day: u32,
    pub serial: u32,
}
