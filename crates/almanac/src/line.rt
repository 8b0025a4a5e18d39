//! A day's line.
ghost use Rattle.std.specs.Prelude.{◌≡◌, IfOk, string_bytes};
ghost use Rattle.std.specs.Option.{option_map};
ghost use Rattle.almanac.specs.Lines.{day_line};

use calendar::calendar::Calendar;
use calendar::day::Day;
use calendar::hours::{Hours, hours_of};
use civil::date::Date;
use std::alloc::{AllocError, Global};

/// The day's line, `DATE KIND OFFSET OPENING NOON CLOSE`; none where the calendar does not know the day.
pub fn day_line<C: Calendar>(
    heap: Global,
    calendar: &C,
    day: u32,
) -> Result<Option<String>, AllocError>
    ensures { IfOk result (λ text. option_map string_bytes text ≡ day_line (C.meaning calendar.now) day) }
{
    let Some(Day { kind, offset }) = calendar.ask(day) else {
        return Ok(None);
    };
    let date = Date::of(day);
    let line = match hours_of(calendar, day) {
        Some(
            Hours {
                opening,
                noon,
                close,
            },
        ) => format!(in heap; "{date} {kind} {offset} {opening} {noon} {close}")?,
        None => format!(in heap; "{date} {kind} {offset} - - -")?,
    };
    Ok(Some(line))
}
