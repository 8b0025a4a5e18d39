//! The figures of a security's day.

/// All trades that survive, or those of them that are published.
#[derive(Clone, Copy, PartialEq, Eq, Debug)]
pub enum Sheet {
    Full,
    Public,
}

// The four prices are four fields, each of which a sheet may lack, as the exchange reads them.
/// Number, volume and turnover of the trades, and four prices, which may be none.
#[derive(Clone, Copy, PartialEq, Eq, Debug)]
pub struct Figures {
    pub number: u32,
    pub volume: u64,
    pub turnover: u64,
    pub opening: Option<u32>,
    pub high: Option<u32>,
    pub low: Option<u32>,
    pub last: Option<u32>,
}
