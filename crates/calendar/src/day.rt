//! What a calendar knows of a day.
ghost use Rattle.std.specs.Prelude.{◌≡◌, Some};
ghost use Rattle.calendar.specs.Listed.{as_listed};
ghost use Rattle.calendar.specs.Meaning.{trades};
ghost use Rattle.calendar.specs.Text.{kind_text};

use std::fmt;

/// Does the market trade on the day, and how long?
#[derive(Clone, Copy, PartialEq, Eq, Debug)]
pub enum Kind {
    Closed,
    Half,
    Full,
}

impl Kind {
    /// Is a day of this kind a trading day?
    pub fn trades(self) -> bool
        ensures { result ≡ trades self }
    {
        match self {
            Kind::Closed => false,
            Kind::Half | Kind::Full => true,
        }
    }
}

impl fmt::Display for Kind {
    ghost output = { λ k. Some (kind_text k) };

    fn fmt<W: fmt::Write>(&self, f: &mut fmt::Formatter<W>) -> fmt::Result {
        match self {
            Kind::Closed => f.write_str("closed"),
            Kind::Half => f.write_str("half"),
            Kind::Full => f.write_str("full"),
        }
    }
}

/// A known day: its kind, and how many seconds Irish time is ahead of UTC.
#[derive(Clone, Copy, PartialEq, Eq, Debug)]
pub struct Day {
    pub kind: Kind,
    pub offset: u32,
}

/// A trading day as a list names it. Any values can stand here; reading the list judges them.
#[derive(Clone, Copy, PartialEq, Eq, Debug)]
pub struct ListedDay {
    pub day: u32,
    pub kind: Kind,
    pub offset: u32,
}

impl From<ListedDay> for Day {
    ghost from_gives = { λ listed day. day ≡ as_listed listed };

    fn from(listed: ListedDay) -> Day {
        Day {
            kind: listed.kind,
            offset: listed.offset,
        }
    }
}
