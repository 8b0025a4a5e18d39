//! A trade judged at the clock.
ghost use Rattle.std.specs.Prelude.{◌≡◌, ◌*◌, [], ◌∷◌};
ghost use Rattle.refusal.specs.Grounds.{first_ground, unless};
ghost use Rattle.deferral.specs.Judged.{is_size, size_ground, turnover_ground, judged_in, judged, LargerNeverEarlier};
ghost use Rattle.deferral.specs.Publication.{tier_if};

use super::opened::{Opened, open_clock_day};
use super::publication::publication_moment;
use super::question::Question;
use super::schedule::Schedule;
use super::tier::Tier;
use super::trade::{Publication, Trade};
use calendar::calendar::Calendar;
use refusal::Refusal;

/// The largest price, in units of 0.0001 EUR, and the largest quantity.
const LARGEST_SIZE: u64 = 999_999_999;

/// The largest turnover, in units of 0.0001 EUR.
const LARGEST_TURNOVER: u64 = 1_000_000_000_000_000;

/// May a price or a quantity be this number?
pub fn is_size(number: u64) -> bool
    ensures { result ≡ is_size number }
{
    (1..=LARGEST_SIZE).contains(&number)
}

/// The turnover of a price and a quantity: refused where one of them is not allowed, then where it is too large.
fn turnover(price: u64, quantity: u64) -> Result<u64, Refusal>
    ensures { result ≡ unless (first_ground (size_ground price quantity ∷ turnover_ground price quantity ∷ [])) (price * quantity) }
{
    if !is_size(price) || !is_size(quantity) {
        return Err(Refusal::PriceOrQuantity);
    }
    let turnover = price
        .checked_mul(quantity)
        .ok_or(Refusal::TurnoverTooLarge)?;
    if turnover <= LARGEST_TURNOVER {
        Ok(turnover)
    } else {
        Err(Refusal::TurnoverTooLarge)
    }
}

/// Refuses a price and a quantity where one of them is not allowed, then where their turnover is too large.
pub fn check_sizes(price: u64, quantity: u64) -> Result<(), Refusal>
    ensures { result ≡ unless (first_ground (size_ground price quantity ∷ turnover_ground price quantity ∷ [])) tt }
{
    turnover(price, quantity)?;
    Ok(())
}

/// A trade's tier: that of the schedule where its publication may be deferred.
fn tier_for<S: Schedule>(schedule: &S, deferrable: bool, question: Question) -> Tier
    ensures { result ≡ tier_if deferrable (S.tier schedule.now question) }
{
    if !deferrable {
        return Tier::Zero;
    }
    schedule.tier_of(question)
}

impl Opened {
    /// Judges a trade at the clock in this day: refused where the market is closed, then for its price and quantity, then for its
    /// execution moment.
    pub fn judge<S: Schedule>(
        &self,
        schedule: &S,
        clock: u64,
        trade: &Trade,
    ) -> Result<Publication, Refusal>
        ensures { result ≡ judged_in (S.tier schedule.now) self.now clock trade.now }
    {
        if !self.is_open_at(clock) {
            return Err(Refusal::MarketClosed);
        }
        let turnover = turnover(trade.price, trade.quantity)?;
        let deadlines = self
            .deadlines_for(clock, trade.execution)
            .ok_or(Refusal::ExecutionMoment)?;
        let question = Question {
            class: trade.class,
            daily: trade.daily,
            turnover,
        };
        let tier = tier_for(schedule, trade.deferrable, question);
        let moment = publication_moment(&deadlines, clock, trade.execution, tier);
        Ok(Publication { tier, moment })
    }
}

/// Judges a trade at the clock: refused where the clock's day cannot be opened, then as the opened day judges it.
pub fn judge_trade<C: Calendar, S: Schedule>(
    calendar: &C,
    schedule: &S,
    clock: u64,
    trade: &Trade,
) -> Result<Publication, Refusal>
    ensures answer { result ≡ judged (C.meaning calendar.now) (S.tier schedule.now) clock trade.now }
    ensures later { LargerNeverEarlier (C.meaning calendar.now) (S.tier schedule.now) }
{
    open_clock_day(calendar, clock)?.judge(schedule, clock, trade)
}
