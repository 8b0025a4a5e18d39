//! What a calendar is.
ghost use Rattle.std.specs.Prelude.{◌≡◌};
ghost use Rattle.calendar.specs.Meaning.{Meaning, Lawful, asked};

use super::day::Day;

/// A calendar: a first day, a last day, and for each day from the one to the other a kind and an Irish offset.
pub trait Calendar {
    ghost meaning: { Self → Meaning };

    /// What the calendar knows of the day; none outside its span.
    fn ask(&self, day: u32) -> Option<Day>
        ensures { result ≡ asked (meaning self.now) day };

    ghost lawful: { (c : Self) → Lawful (meaning c) };
}
