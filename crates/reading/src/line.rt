//! A line that holds a trade: `CLASS ADT PRICE QUANTITY EXECUTION CLOCK MARK`.
ghost use Rattle.std.specs.Prelude.{◌≡◌};
ghost use Rattle.refusal.specs.Grounds.{unless};
ghost use Rattle.reading.specs.Line.{class_flaw, class_of, mark_flaw, defers, told_of, field_flaw, line_read};
ghost use Rattle.reading.specs.Number.{decimal_value};
ghost use Rattle.reading.specs.Words.{is_space};

use crate::flaw::{Field, Flaw};
use crate::number::{NumberFlaw, read_number};
use deferral::question::Class;
use deferral::trade::Trade;

/// A trade, and the clock at which it is reported.
#[derive(Clone, Copy, PartialEq, Eq, Debug)]
pub struct Asked {
    pub trade: Trade,
    pub clock: u64,
}

/// Is the byte a space?
fn is_space(byte: u8) -> bool
    ensures { result ≡ is_space byte }
{
    byte == b' '
}

/// Reads the class of a security.
fn read_class(word: &[u8]) -> Result<Class, Flaw>
    ensures { result ≡ unless (class_flaw word.now) (class_of word.now) }
{
    match word {
        b"" => Err(Flaw::Missing(Field::Class)),
        b"E" => Ok(Class::Equity),
        b"F" => Ok(Class::Etf),
        _ => Err(Flaw::WrongClass),
    }
}

/// Reads whether publication may be deferred.
fn read_mark(word: &[u8]) -> Result<bool, Flaw>
    ensures { result ≡ unless (mark_flaw word.now) (defers word.now) }
{
    match word {
        b"" => Err(Flaw::Missing(Field::Mark)),
        b"D" => Ok(true),
        b"N" => Ok(false),
        _ => Err(Flaw::WrongMark),
    }
}

// No `From`: the field comes with it.
/// What is wrong with a number, told of its field.
fn told_of(field: Field, flaw: NumberFlaw) -> Flaw
    ensures { result ≡ told_of field flaw }
{
    match flaw {
        NumberFlaw::Empty => Flaw::Missing(field),
        NumberFlaw::NoDigits => Flaw::NoNumber(field),
        NumberFlaw::LeadingZero => Flaw::LeadingZero(field),
        NumberFlaw::TooLarge => Flaw::TooLarge(field),
    }
}

/// Reads the number of a field.
fn read_field(field: Field, word: &[u8]) -> Result<u64, Flaw>
    ensures { result ≡ unless (field_flaw field word.now) (decimal_value word.now) }
{
    read_number(word).map_err(|flaw| told_of(field, flaw))
}

// Each word is taken where those before it are right, so that a line is looked at no further than its first flaw.
/// Reads a line, without its end: its words from left to right, of which one that is not there is as an empty one.
pub fn read_line(line: &[u8]) -> Result<Asked, Flaw>
    ensures { result ≡ line_read line.now }
{
    let mut words = line.split(|byte| is_space(*byte));
    let class = read_class(words.next().unwrap_or(&[]))?;
    let daily = read_field(Field::Daily, words.next().unwrap_or(&[]))?;
    let price = read_field(Field::Price, words.next().unwrap_or(&[]))?;
    let quantity = read_field(Field::Quantity, words.next().unwrap_or(&[]))?;
    let execution = read_field(Field::Execution, words.next().unwrap_or(&[]))?;
    let clock = read_field(Field::Clock, words.next().unwrap_or(&[]))?;
    let deferrable = read_mark(words.next().unwrap_or(&[]))?;
    if words.next().is_some() {
        return Err(Flaw::TooManyWords);
    }
    let trade = Trade {
        class,
        daily,
        price,
        quantity,
        execution,
        deferrable,
    };
    Ok(Asked { trade, clock })
}
