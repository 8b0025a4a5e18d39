//! Lines of the tape.
use super::report::Waiver;
use super::security::Segment;
use identifier::Isin;

/// What a line tells: a trade, an amended trade, or that a trade is cancelled.
#[derive(Clone, Copy, PartialEq, Eq, Debug)]
pub enum Told {
    Entr,
    Amnd,
    Canc,
}

/// A line's day and its number among that day's lines, from 1; zeros for no line.
#[derive(Clone, Copy, PartialEq, Eq, Debug)]
pub struct Place {
    pub day: u32,
    pub number: u32,
}

// The fields that a report has too are written out, as they are on the tape: every reader of either takes them one by one.
/// A line of the tape.
#[derive(Clone, Copy)]
pub struct Line {
    pub place: Place,
    pub moment: u64,
    pub told: Told,
    pub isin: Isin,
    pub segment: Segment,
    pub price: u32,
    pub quantity: u32,
    pub execution: u64,
    pub actx: bool,
    pub benc: bool,
    pub sdiv: bool,
    pub waiver: Option<Waiver>,
    /// Of a cancellation, the line that it recalls; of others zeros, as the exchange writes its lines.
    pub recalled: Place,
}
