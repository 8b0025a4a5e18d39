//! The held days.
ghost use Rattle.std.specs.Bool.{IsTrue};
ghost use Rattle.std.specs.Prelude.{◌≡◌};
ghost use Rattle.ledger.specs.HeldDay.{holds};
ghost use Rattle.ledger.specs.Packed.{packed};

use super::held_day::HeldDay;
use deferral::opened::Opened;
use report::report::Code;

/// The held days, the latest first: at most three, in front of the empty places.
#[derive(Clone, Copy)]
pub struct Days {
    pub held: [Option<HeldDay>; 3],
    ghost packed: { IsTrue (packed held) },
}

/// Is it that day which stands in the place?
fn holds(place: &Option<HeldDay>, day: u32) -> bool
    ensures { result ≡ holds day place.now }
{
    matches!(place, Some(held) if held.is_day(day))
}

impl Days {
    ghost use Rattle.std.specs.Prelude.{◌+◌, ◌^◌, ◌<◌, List, [], ◌∷◌, length, map, take, Some};
    ghost use Rattle.rulebook.specs.declared.record.Record.{Record as Trade};
    ghost use Rattle.std.specs.List.{find};
    ghost use Rattle.rulebook.specs.Notebook.{among};
    ghost use Rattle.std.specs.Option.{option_map};
    ghost use Rattle.ledger.specs.HeldDay.{is_day, lowered};
    ghost use Rattle.ledger.specs.Days.{held_days, days_of, newest, oldest, slot_of, index_of, next_in, counted, falls_out, with_opened};
    ghost use Rattle.ledger.specs.Filed.{Filed, Finds};

    /// No day is held.
    pub fn new() -> Days
        ensures { held_days result ≡ [] }
    {
        Days { held: [None; 3] }
    }

    /// The latest opened day.
    pub fn latest(&self) -> Option<HeldDay>
        ensures { result ≡ newest (held_days self.now) }
    {
        self.held[0]
    }

    /// The day that was opened first.
    pub fn oldest(&self) -> Option<HeldDay>
        ensures { result ≡ oldest (held_days self.now) }
    {
        self.held[2].or(self.held[1]).or(self.held[0])
    }

    /// The held day of that number.
    pub fn find(&self, day: u32) -> Option<HeldDay>
        ensures { result ≡ find (is_day day) (held_days self.now) }
    {
        *self.held.iter().find(|&place| holds(place, day))?
    }

    /// Is the day held?
    pub fn has(&self, day: u32) -> bool
        ensures { result ≡ among (days_of self.now) day }
    {
        self.held.iter().any(|place| holds(place, day))
    }

    /// The place of a day among the held ones, the latest being at 0.
    pub fn slot_of(&self, day: u32) -> Option<usize>
        ensures { result ≡ slot_of day (days_of self.now) }
    {
        self.held.iter().position(|place| holds(place, day))
    }

    /// How many records go where one day more is opened: of four days the oldest goes with its trades.
    fn falls_out(&self) -> usize
        ensures { result ≡ falls_out (held_days self.now) }
    {
        self.held[2].map_or(0, |oldest| oldest.taken)
    }

    /// Puts a day in front, where so many records go, and what stands in the last place falls out.
    fn put_in_front(&mut self, day: HeldDay, gone: usize)
        ensures { self.new.held ≡ map (option_map (lowered gone)) (Some day ∷ take 2 self.old.held) }
    {
        let [latest, second, _] = self.held;
        let lowered = |held: Option<HeldDay>| held.map(|held| held.lowered(gone));
        self.held = [lowered(Some(day)), lowered(latest), lowered(second)];
    }

    /// Holds one day more, which begins behind the `count` records held. Of four days the oldest goes with its trades, and those
    /// of the others move to the front. Answers how many records go.
    pub fn open(&mut self, opened: Opened, count: usize) -> usize
        ensures gone { result ≡ falls_out (held_days self.old) }
        ensures held { held_days self.new ≡ with_opened opened count (held_days self.old) }
        ensures days { days_of self.new ≡ take 3 (opened ∷ days_of self.old) }
    {
        let gone = self.falls_out();
        let day = HeldDay {
            opened,
            first: count,
            taken: 0,
        };
        self.put_in_front(day, gone);
        gone
    }

    /// The next code of the latest day, which is counted; none where no day is held or the serial would not fit.
    pub fn take_next(&mut self) -> Option<Code>
        ensures code { result ≡ next_in (held_days self.old) }
        ensures held { held_days self.new ≡ counted (held_days self.old) }
        ensures days { days_of self.new ≡ days_of self.old }
    {
        // `as_mut()?` would keep the lent day over the call, which no proof covers yet.
        match &mut self.held[0] {
            Some(latest) => latest.take_next(),
            None => None,
        }
    }

    /// Where the trade of a code stands among the records; none where its day is not held or has no such serial.
    pub fn index_of(&self, code: Code) -> Option<usize>
        ensures value { result ≡ index_of self.now code }
        ensures finds { (rs : List Trade) → Filed (held_days self.now) rs → length rs < 2 ^ 64 → Finds rs code result }
    {
        self.find(code.day)?.place_of(code.serial)
    }
}
