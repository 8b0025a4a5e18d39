//! Days, dates and weekdays.
use almanac::closing::Closing;
use civil::date::{Date, day_number};
use civil::month::Month;
use civil::weekday::{Weekday, last_sunday};
use civil::year::is_leap;
use std::test::Fail;

fn date(year: u32, month: Month, day: u32) -> Date {
    Date { year, month, day }
}

#[test]
fn the_first_days(rt: HostRuntime) {
    assert_eq!(rt; Date::of(0), date(1970, Month::January, 1));
    assert_eq!(rt; Date::of(10_957), date(2000, Month::January, 1));
    assert_eq!(rt; Date::of(84_005), date(2199, Month::December, 31));
    assert_eq!(rt; Weekday::of(0), Weekday::Thursday);
    assert_eq!(rt; Weekday::of(17_619), Weekday::Thursday);
}

#[test]
fn leap_years(rt: HostRuntime) {
    assert!(rt; is_leap(2000) && !is_leap(2100) && is_leap(2024) && !is_leap(2023));
    assert_eq!(rt; day_number(2000, Month::March, 1), 11_017);
    assert_eq!(rt; Date::of(11_016), date(2000, Month::February, 29));
    assert_eq!(rt; Date::of(47_540), date(2100, Month::February, 28));
    assert_eq!(rt; Date::of(47_541), date(2100, Month::March, 1));
}

#[test]
fn the_largest_day(rt: HostRuntime) {
    let date = Date::of(u32::MAX);
    assert_eq!(rt; day_number(date.year, date.month, date.day), 4_294_967_295);
}

#[test]
fn last_sundays(rt: HostRuntime) {
    assert_eq!(rt;
        last_sunday(2018, Month::March),
        day_number(2018, Month::March, 25)
    );
    assert_eq!(rt;
        last_sunday(2018, Month::October),
        day_number(2018, Month::October, 28)
    );
    assert_eq!(rt;
        last_sunday(2019, Month::March),
        day_number(2019, Month::March, 31)
    );
}

#[test]
fn names_are_printed(rt: HostRuntime) -> Result<(), Fail> {
    let month = Month::September;
    let weekday = Weekday::Wednesday;
    let closing = Closing::on(17_620).ok_or("no closing")?;
    let text = format!(in rt.alloc(); "{month} {weekday:<10}|{closing:>12}")?;
    assert!(rt; text.as_str() == "September Wednesday | Good Friday");
    Ok(())
}
