//! Why a call is refused: one case for each ground, with its number.

#![tactic(auto)]

ghost use Rattle.std.specs.Prelude.{◌≡◌, Some, decimal};
ghost use Rattle.refusal.specs.Numbers.{number_of};

use std::error::Error;
use std::fmt;

/// The ground on which a call is refused. docs/RULES.md says what each means and which calls give it.
#[derive(Clone, Copy, PartialEq, Eq, Debug)]
pub enum Refusal {
    Sizes = 1,
    BeforeTheClock = 2,
    AfterTheLastDay = 3,
    TapeTooShort = 4,
    WrongIsin = 5,
    ListingOutOfRange = 6,
    NoPlaceForSecurity = 7,
    NoTradingDay = 8,
    NoNeighbour = 9,
    OpenedTooEarly = 10,
    MarketClosed = 11,
    NotListed = 12,
    Suspended = 13,
    OtherSegment = 14,
    PriceOrQuantity = 15,
    TurnoverTooLarge = 16,
    ExecutionMoment = 17,
    TooManyFlags = 18,
    WrongCounterparty = 19,
    NegotiatedNotLiquid = 20,
    NegotiatedSuspended = 21,
    IlliquidButLiquid = 22,
    RisklessPrincipalAsAgent = 23,
    NoFreeRecord = 24,
    TapeFull = 25,
    NoSuchTrade = 26,
    ExecutionDiffers = 27,
    BufferTooShort = 28,
    DayNotHeld = 29,
    AmountOutOfRange = 30,
    AmountsFall = 31,
    WrongCalendar = 32,
}

impl Refusal {
    // By name and not by `From`: a ground is no number, it has one.
    /// The number by which the ground is known outside.
    pub fn number(self) -> u8
        ensures { result ≡ number_of self }
    {
        self as u8
    }
}

/// Written by its number.
impl fmt::Display for Refusal {
    ghost output = { λ refusal. Some (decimal (number_of refusal)) };

    fn fmt<W: fmt::Write>(&self, f: &mut fmt::Formatter<W>) -> fmt::Result {
        write!(f, "{}", self.number())
    }
}

impl Error for Refusal {}
