//! What a schedule is asked.

/// The class of a security.
#[derive(Clone, Copy, PartialEq, Eq, Debug)]
pub enum Class {
    Equity,
    Etf,
}

/// A security's class and average daily turnover in whole EUR, and a trade's turnover in units of 0.0001 EUR.
#[derive(Clone, Copy, PartialEq, Eq, Debug)]
pub struct Question {
    pub class: Class,
    pub daily: u64,
    pub turnover: u64,
}
