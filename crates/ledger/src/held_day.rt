//! A held day.
ghost use Rattle.std.specs.Prelude.{◌≡◌, ◌+◌, if◌then◌else◌, Some, None};
ghost use Rattle.ledger.specs.HeldDay.{is_day, place_in, lowered, code_in, has_next, with_next};

use deferral::opened::Opened;
use report::report::Code;

/// A held day: what its opening noted, where its trades begin among the records, and how many there are.
#[derive(Clone, Copy)]
pub struct HeldDay {
    pub opened: Opened,
    pub first: usize,
    pub taken: usize,
}

impl HeldDay {
    /// Is it that day?
    pub(crate) fn is_day(&self, day: u32) -> bool
        ensures { result ≡ is_day day self.now }
    {
        self.opened.day == day
    }

    /// Where the trade of a serial stands among the records; none where the day has no such serial.
    pub(crate) fn place_of(&self, serial: u32) -> Option<usize>
        ensures { result ≡ place_in serial self.now }
    {
        let behind = (serial as usize).checked_sub(1)?;
        (behind < self.taken).then_some(self.first.saturating_add(behind))
    }

    /// The day where so many records in front of it go.
    pub(crate) fn lowered(&self, gone: usize) -> HeldDay
        ensures { result ≡ lowered gone self.now }
    {
        HeldDay {
            first: self.first.saturating_sub(gone),
            ..*self
        }
    }

    /// The day's next code, which is counted; none where the serial would not fit.
    pub(crate) fn take_next(&mut self) -> Option<Code>
        ensures code { result ≡ (if has_next self.old then Some (code_in self.old (self.old.taken + 1)) else None) }
        ensures held { self.new ≡ (if has_next self.old then with_next self.old else self.old) }
    {
        if self.taken >= u32::MAX as usize {
            return None;
        }
        self.taken += 1;
        Some(Code {
            day: self.opened.day,
            serial: self.taken as u32,
        })
    }
}
