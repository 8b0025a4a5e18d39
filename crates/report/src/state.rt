//! The states of a trade.
ghost use Rattle.std.specs.Prelude.{◌≡◌};
ghost use Rattle.report.specs.States.{after, survives};

/// The state of a trade.
#[derive(Clone, Copy, PartialEq, Eq, Debug)]
pub enum State {
    /// Taken, and not yet seen by the market.
    Waiting,
    /// Seen by the market.
    Published,
    /// Withdrawn before the market saw it.
    Dropped,
    /// Withdrawn after the market saw it.
    Recalled,
}

/// What can happen to a trade.
#[derive(Clone, Copy, PartialEq, Eq, Debug)]
pub enum Event {
    /// Its moment has come.
    Due,
    /// It is cancelled or amended.
    Withdrawn,
}

impl State {
    /// Meets an event: the only way in which a state changes.
    pub fn meet(&mut self, event: Event)
        ensures { self.new ≡ after self.old event }
    {
        match (*self, event) {
            (State::Waiting, Event::Due) => *self = State::Published,
            (State::Waiting, Event::Withdrawn) => *self = State::Dropped,
            (State::Published, Event::Withdrawn) => *self = State::Recalled,
            (State::Published, Event::Due) => {}
            (State::Dropped, Event::Due | Event::Withdrawn) => {}
            (State::Recalled, Event::Due | Event::Withdrawn) => {}
        }
    }

    /// Has nothing withdrawn the trade?
    pub fn survives(self) -> bool
        ensures { result ≡ survives self }
    {
        matches!(self, State::Waiting | State::Published)
    }
}
