//! The calls on a book, and what they answer.
ghost use Rattle.std.specs.Prelude.{◌≡◌};
ghost use Rattle.refusal.specs.Grounds.{first_ground, unless};
ghost use Rattle.rulebook.specs.Sizing.{make_grounds};

use identifier::{Isin, Member};
use refusal::Refusal;
use report::figures::{Figures, Sheet};
use report::report::{Code, Report};
use report::security::Security;
use report::warnings::Warnings;

/// How large a book is: trades, securities and tape lines that it has places for, and the factor by which PRIC widens a tolerance.
#[derive(Clone, Copy)]
pub struct Sizes {
    pub records: usize,
    pub securities: usize,
    pub lines: usize,
    pub expand: u8,
}

impl Sizes {
    /// Refuses to make a book of these sizes, where one of them is not allowed.
    pub fn check(&self) -> Result<(), Refusal>
        ensures { result ≡ unless (first_ground (make_grounds self.now)) tt }
    {
        let allowed = (1..=4_096).contains(&self.records)
            && (1..=64).contains(&self.securities)
            && (2..=8_192).contains(&self.lines)
            && (1..=100).contains(&self.expand);
        if allowed { Ok(()) } else { Err(Refusal::Sizes) }
    }
}

/// A call on a book.
#[derive(Clone, Copy)]
pub enum Call {
    /// Lists a security, or replaces the one of its ISIN.
    List(Security),
    /// Moves the clock and publishes what is due by then.
    Advance(u64),
    /// Opens the clock's day.
    Open,
    /// Takes a trade.
    Enter(Report),
    /// Withdraws the trade of a code and takes a new one.
    Amend(Code, Report),
    /// Withdraws the trade of a code.
    Cancel(Member, Code),
    /// Copies the standing lines to a buffer of so many places, and empties the tape.
    CarryAway(usize),
    /// Reads the figures of a security, a day and a sheet.
    Figures(Isin, u32, Sheet),
}

/// What enter and amend answer.
#[derive(Clone, Copy)]
pub struct Receipt {
    pub code: Code,
    /// When the market may see the trade.
    pub moment: u64,
    pub warnings: Warnings,
}

/// What a call answers that is taken; a refused one answers its refusal.
#[derive(Clone, Copy)]
pub enum Answer {
    /// Listed, opened or cancelled.
    Done,
    /// How many trades were published.
    Advanced(usize),
    Taken(Receipt),
    /// How many lines were copied.
    Carried(usize),
    Counted(Figures),
}
