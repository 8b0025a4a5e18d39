//! What can be wrong with a request, and with answering it.
use super::year::Year;
use std::alloc::AllocError;
use std::{fmt, io};

/// Why nothing is printed.
#[derive(Drop, PartialEq, Debug)]
pub enum Fault {
    NoYear,
    NoNumber,
    OutOfRange(u32),
    Backwards(Year, Year),
    TooManyWords,
    Failed,
}

impl fmt::Display for Fault {
    fn fmt<W: fmt::Write>(&self, f: &mut fmt::Formatter<W>) -> fmt::Result {
        match self {
            Fault::NoYear => f.write_str("no year is given"),
            Fault::NoNumber => f.write_str("a year is not a number"),
            Fault::OutOfRange(year) => write!(f, "{year} is not a year from 2000 to 2199"),
            Fault::Backwards(first, last) => write!(
                f,
                "the first year, {first}, is after the last, {last}"
            ),
            Fault::TooManyWords => f.write_str("there are too many words"),
            Fault::Failed => f.write_str("memory or output failed"),
        }
    }
}

impl std::error::Error for Fault {}

impl From<io::Error> for Fault {
    fn from(_e: io::Error) -> Fault {
        Fault::Failed
    }
}

impl From<AllocError> for Fault {
    fn from(_e: AllocError) -> Fault {
        Fault::Failed
    }
}
