//! The hours of a trading day, for every calendar.
ghost use Rattle.std.specs.Prelude.{◌≡◌, ◌+◌, ◌-◌, ◌*◌};
ghost use Rattle.calendar.specs.Trading.{hours_of};

use super::calendar::Calendar;
use super::day::Kind;

/// How long a day is, in seconds.
pub const DAY: u64 = 86_400;

// Irish times of the day, in seconds after midnight.
const OPENING: u32 = 6 * 3600 + 30 * 60;

const NOON_POINT: u32 = 11 * 3600 + 55 * 60;

const CLOSE_HALF: u32 = 13 * 3600 + 15 * 60;

const CLOSE_FULL: u32 = 17 * 3600 + 15 * 60;

/// The moments of a trading day, in seconds since 1970-01-01 00:00:00 UTC.
#[derive(Clone, Copy, PartialEq, Eq, Debug)]
pub struct Hours {
    pub opening: u64,
    pub noon: u64,
    pub close: u64,
}

/// The moment at which Irish clocks show `time` on the day, the offset being taken away.
fn irish_moment(day: u32, time: u32, offset: u32) -> u64
    ensures { result ≡ day * 86400 + time - offset }
{
    (day as u64 * DAY + time as u64).saturating_sub(offset as u64)
}

/// The moments of the day; none where it is no known trading day.
pub fn hours_of<C: Calendar>(calendar: &C, day: u32) -> Option<Hours>
    ensures { result ≡ hours_of (C.meaning calendar.now) day }
{
    let known = calendar.ask(day)?;
    let close = match known.kind {
        Kind::Closed => return None,
        Kind::Half => CLOSE_HALF,
        Kind::Full => CLOSE_FULL,
    };
    let moment = |time: u32| irish_moment(day, time, known.offset);
    Some(Hours {
        opening: moment(OPENING),
        noon: moment(NOON_POINT),
        close: moment(close),
    })
}
