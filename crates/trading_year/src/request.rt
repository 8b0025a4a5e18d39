//! What the words of the command ask for.
use super::fault::Fault;
use super::year::Year;

/// What is to be printed.
#[derive(Clone, Copy, PartialEq, Eq, Debug)]
pub enum Request {
    /// The year's calendar as a page.
    Page(Year),
    /// A line for each day from the first year to the last.
    Days(Year, Year),
}

/// Reads the years whose days are asked for.
fn read_days(years: &[String]) -> Result<Request, Fault> {
    match years {
        [] => Err(Fault::NoYear),
        [year] => {
            let year = year.as_str().parse()?;
            Ok(Request::Days(year, year))
        }
        [first, last] => {
            let first = first.as_str().parse()?;
            let last = last.as_str().parse()?;
            if first > last {
                return Err(Fault::Backwards(first, last));
            }
            Ok(Request::Days(first, last))
        }
        _ => Err(Fault::TooManyWords),
    }
}

// Beside `reading::request`, which reads no year with a plus sign or leading zeros: this program reads them.
/// Reads the words after the program's name.
pub fn read_request(words: &[String]) -> Result<Request, Fault> {
    match words {
        [years @ .., mark] if mark.as_str() == "--days" => read_days(years),
        [] => Err(Fault::NoYear),
        [year] => Ok(Request::Page(year.as_str().parse()?)),
        _ => Err(Fault::TooManyWords),
    }
}
