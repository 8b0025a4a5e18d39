//! Easter Sunday.
ghost use Rattle.std.specs.Prelude.{◌≡◌, ◌+◌, ◌-◌, ◌*◌, ◌≤◌};
ghost use Rattle.calendar.specs.Easter.{easter_sunday, after_22_march, ASunday};

use civil::date::day_number;
use civil::month::Month;

/// How many days after 22 March Easter Sunday is, by Gauss's rule.
fn days_after_22_march(year: u32) -> u32
    ensures value { result ≡ after_22_march year }
    ensures bound { result ≤ 35 }
{
    let a = year % 19;
    let d = (19 * a + 24) % 30;
    let century = if year < 2100 { 5 } else { 6 };
    let e = (2 * (year % 4) + 4 * (year % 7) + 6 * d + century) % 7;
    let days = d + e;
    if days == 35 {
        28
    } else if days == 34 && d == 28 && a > 10 {
        27
    } else {
        days
    }
}

/// The day of Easter Sunday.
pub fn easter_sunday(year: u32) -> u64
    ensures value { result ≡ easter_sunday year }
    ensures bound { result ≤ 366 * (year - 1970) + 392 }
    ensures sunday { 2000 ≤ year → year ≤ 2199 → ASunday year result }
{
    day_number(year, Month::March, 22 + days_after_22_march(year))
}
