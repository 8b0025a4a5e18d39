//! What the words after the name of a program that prints trading years ask for.
ghost use Rattle.std.specs.Prelude.{◌≡◌, map, Some, string_bytes};
ghost use Rattle.reading.specs.declared.request.Request.TheVariants.{Days};
ghost use Rattle.refusal.specs.Grounds.{unless};
ghost use Rattle.reading.specs.Messages.{fault_text};
ghost use Rattle.reading.specs.Number.{decimal_value};
ghost use Rattle.reading.specs.Request.{year_fault, span_fault, page_read, days_read, asks_days, one_read, marked_read, request_read};

use crate::number::read_number;
use std::fmt;

/// The years of the calendar by rule.
const FIRST_YEAR: u64 = 2000;

const LAST_YEAR: u64 = 2199;

/// The mark that asks for days.
const DAYS: &[u8] = b"--days";

// Beside `trading_year`'s own: `Request` and `Fault` here are of numbers of 64 bits without signs, that program's of the years it reads.
/// What is to be printed.
#[derive(Clone, Copy, PartialEq, Eq, Debug)]
pub enum Request {
    /// The year's calendar as a page.
    Page(u32),
    /// A line for each day from the first year to the last.
    Days(u32, u32),
}

/// Why nothing is printed.
#[derive(Clone, Copy, PartialEq, Eq, Debug)]
pub enum Fault {
    /// No word is a year.
    NoYear,
    /// A year is not a number.
    NoNumber,
    /// A number is not a year of the calendar by rule.
    OutOfRange(u64),
    /// The first year is after the last.
    Backwards(u32, u32),
    /// There are more words than a request has.
    TooManyWords,
}

impl fmt::Display for Fault {
    ghost output = { λ fault. Some (fault_text fault) };

    fn fmt<W: fmt::Write>(&self, f: &mut fmt::Formatter<W>) -> fmt::Result {
        match *self {
            Fault::NoYear => write!(f, "no year is given"),
            Fault::NoNumber => write!(f, "a year is not a number"),
            Fault::OutOfRange(year) => write!(f, "{year} is not a year from 2000 to 2199"),
            Fault::Backwards(first, last) => write!(
                f,
                "the first year, {first}, is after the last, {last}"
            ),
            Fault::TooManyWords => write!(f, "there are too many words"),
        }
    }
}

impl std::error::Error for Fault {}

/// Reads a year of the calendar by rule.
fn read_year(word: &[u8]) -> Result<u32, Fault>
    ensures { result ≡ unless (year_fault word.now) (decimal_value word.now) }
{
    let year = read_number(word).map_err(|_| Fault::NoNumber)?;
    if !(FIRST_YEAR..=LAST_YEAR).contains(&year) {
        return Err(Fault::OutOfRange(year));
    }
    Ok(year as u32)
}

/// Reads the year of a page.
fn read_page(word: &[u8]) -> Result<Request, Fault>
    ensures { result ≡ page_read word.now }
{
    Ok(Request::Page(read_year(word)?))
}

/// The days from the first year to the last.
fn days_of(first: u32, last: u32) -> Result<Request, Fault>
    ensures { result ≡ unless (span_fault first last) (Days first last) }
{
    if last < first {
        return Err(Fault::Backwards(first, last));
    }
    Ok(Request::Days(first, last))
}

/// Reads the years of a span.
fn read_days(first: &[u8], last: &[u8]) -> Result<Request, Fault>
    ensures { result ≡ days_read first.now last.now }
{
    let first = read_year(first)?;
    let last = read_year(last)?;
    days_of(first, last)
}

/// Does the word ask for a line for each day?
fn asks_days(word: &[u8]) -> bool
    ensures { result ≡ asks_days word.now }
{
    word == DAYS
}

/// Reads the only word.
fn read_one(word: &[u8]) -> Result<Request, Fault>
    ensures { result ≡ one_read word.now }
{
    if asks_days(word) {
        Err(Fault::NoYear)
    } else {
        read_page(word)
    }
}

/// Reads two years, and the word behind them.
fn read_marked(first: &[u8], last: &[u8], mark: &[u8]) -> Result<Request, Fault>
    ensures { result ≡ marked_read first.now last.now mark.now }
{
    if asks_days(mark) {
        read_days(first, last)
    } else {
        Err(Fault::TooManyWords)
    }
}

/// Reads the words after the program's name.
pub fn read_request(words: &[String]) -> Result<Request, Fault>
    ensures { result ≡ request_read (map string_bytes words.now) }
{
    match words {
        [] => Err(Fault::NoYear),
        [word] => read_one(word.as_bytes()),
        [year, mark] => {
            let year = year.as_bytes();
            read_marked(year, year, mark.as_bytes())
        }
        [first, last, mark] => read_marked(first.as_bytes(), last.as_bytes(), mark.as_bytes()),
        _ => Err(Fault::TooManyWords),
    }
}
