//! Securities.
use deferral::question::Class;
use identifier::Isin;

/// A segment of the market.
#[derive(Clone, Copy, PartialEq, Eq, Debug)]
pub enum Segment {
    Xmsm,
    Xesm,
    Xatl,
}

/// A security, right or wrong: listing it judges it.
#[derive(Clone, Copy)]
pub struct Security {
    pub isin: Isin,
    pub segment: Segment,
    pub class: Class,
    /// Average daily turnover in whole EUR.
    pub daily: u64,
    pub liquid: bool,
    /// No trade may be negotiated under the waiver NLIQ for the time being.
    pub nliq_suspended: bool,
    pub suspended: bool,
    /// In units of 0.0001 EUR; 0 where there is none, as the exchange lists it.
    pub reference: u32,
    /// How far a price may lie from the reference, in units of 0.0001 EUR.
    pub tolerance: u32,
    /// The largest quantity that warns nobody.
    pub cap: u32,
}
