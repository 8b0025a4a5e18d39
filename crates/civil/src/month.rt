//! The twelve months.
ghost use Rattle.std.specs.Prelude.{◌≡◌, ◌+◌};
ghost use Rattle.civil.specs.Dates.{next_month, place};

#[derive(Clone, Copy, PartialEq, Eq, Debug)]
pub enum Month {
    January,
    February,
    March,
    April,
    May,
    June,
    July,
    August,
    September,
    October,
    November,
    December,
}

impl Month {
    /// The months of a year, in their order.
    pub const ALL: [Month; 12] = [
        Month::January,
        Month::February,
        Month::March,
        Month::April,
        Month::May,
        Month::June,
        Month::July,
        Month::August,
        Month::September,
        Month::October,
        Month::November,
        Month::December,
    ];

    // By name and not by `From`: a month is no number, it has one.
    /// The month's number, January's being 1.
    pub fn number(self) -> u32
        ensures { result ≡ place self + 1 }
    {
        self as u32 + 1
    }

    /// The month after this one; January follows December.
    pub fn following(self) -> Month
        ensures { result ≡ (next_month 0 self).month }
    {
        match self {
            Month::January => Month::February,
            Month::February => Month::March,
            Month::March => Month::April,
            Month::April => Month::May,
            Month::May => Month::June,
            Month::June => Month::July,
            Month::July => Month::August,
            Month::August => Month::September,
            Month::September => Month::October,
            Month::October => Month::November,
            Month::November => Month::December,
            Month::December => Month::January,
        }
    }
}
