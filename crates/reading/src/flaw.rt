//! What can be wrong with a line.
ghost use Rattle.std.specs.Prelude.{◌≡◌, Some};
ghost use Rattle.reading.specs.Messages.{field_name, flaw_text};

use std::fmt;

/// The words of a line, in their order.
#[derive(Clone, Copy, PartialEq, Eq, Debug)]
pub enum Field {
    Class,
    Daily,
    Price,
    Quantity,
    Execution,
    Clock,
    Mark,
}

impl fmt::Display for Field {
    ghost output = { λ field. Some (field_name field) };

    fn fmt<W: fmt::Write>(&self, f: &mut fmt::Formatter<W>) -> fmt::Result {
        f.write_str(match self {
            Field::Class => "CLASS",
            Field::Daily => "ADT",
            Field::Price => "PRICE",
            Field::Quantity => "QUANTITY",
            Field::Execution => "EXECUTION",
            Field::Clock => "CLOCK",
            Field::Mark => "MARK",
        })
    }
}

/// Why a line cannot be read.
#[derive(Clone, Copy, PartialEq, Eq, Debug)]
pub enum Flaw {
    /// The word is not there, or is empty.
    Missing(Field),
    /// The class is none of `E` and `F`.
    WrongClass,
    /// The word is not in digits.
    NoNumber(Field),
    /// The number begins with 0, and goes on.
    LeadingZero(Field),
    /// The number has more than 64 bits.
    TooLarge(Field),
    /// The mark is none of `N` and `D`.
    WrongMark,
    /// A word stands behind the seventh.
    TooManyWords,
}

impl fmt::Display for Flaw {
    ghost output = { λ flaw. Some (flaw_text flaw) };

    fn fmt<W: fmt::Write>(&self, f: &mut fmt::Formatter<W>) -> fmt::Result {
        match *self {
            Flaw::Missing(field) => write!(f, "{field} is missing"),
            Flaw::WrongClass => write!(f, "CLASS is not E or F"),
            Flaw::NoNumber(field) => write!(f, "{field} is not a number"),
            Flaw::LeadingZero(field) => write!(f, "{field} begins with 0"),
            Flaw::TooLarge(field) => write!(f, "{field} is too large"),
            Flaw::WrongMark => write!(f, "MARK is not N or D"),
            Flaw::TooManyWords => write!(f, "there are more than seven words"),
        }
    }
}

impl std::error::Error for Flaw {}
