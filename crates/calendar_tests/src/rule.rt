//! The calendar by rule at its edges.
use calendar::calendar::Calendar;
use calendar::day::{Day, Kind};
use calendar::easter::easter_sunday;
use calendar::hours::{Hours, hours_of};
use calendar::neighbour::{is_trading_day, next_trading_day, previous_trading_day};
use calendar::rule::RuleCalendar;
use civil::date::day_number;
use civil::month::Month;
use std::num::TryFromIntError;
use std::test::Fail;

fn on(year: u32, month: Month, day: u32) -> Result<u32, TryFromIntError> {
    u32::try_from(day_number(year, month, day))
}

fn ask(year: u32, month: Month, day: u32) -> Result<Option<Day>, TryFromIntError> {
    Ok(RuleCalendar.ask(on(year, month, day)?))
}

pub(crate) fn known(kind: Kind, offset: u32) -> Option<Day> {
    Some(Day { kind, offset })
}

#[test]
fn the_span(rt: HostRuntime) {
    assert_eq!(rt; RuleCalendar.ask(10_956), None);
    assert_eq!(rt; RuleCalendar.ask(10_957), known(Kind::Closed, 0));
    assert_eq!(rt; RuleCalendar.ask(84_005), known(Kind::Half, 0));
    assert_eq!(rt; RuleCalendar.ask(84_006), None);
    assert_eq!(rt; RuleCalendar.ask(0), None);
    assert_eq!(rt; RuleCalendar.ask(u32::MAX), None);
}

#[test]
fn the_clock_changes(rt: HostRuntime) -> Result<(), Fail> {
    assert_eq!(rt; ask(2018, Month::March, 24)?, known(Kind::Closed, 0));
    assert_eq!(rt; ask(2018, Month::March, 25)?, known(Kind::Closed, 3_600));
    assert_eq!(rt; ask(2018, Month::October, 27)?, known(Kind::Closed, 3_600));
    assert_eq!(rt; ask(2018, Month::October, 28)?, known(Kind::Closed, 0));
    Ok(())
}

#[test]
fn half_days_and_weekends(rt: HostRuntime) -> Result<(), Fail> {
    assert_eq!(rt; ask(2018, Month::December, 24)?, known(Kind::Half, 0));
    assert_eq!(rt; ask(2018, Month::December, 31)?, known(Kind::Half, 0));
    assert_eq!(rt; ask(2016, Month::December, 24)?, known(Kind::Closed, 0));
    assert_eq!(rt; ask(2017, Month::December, 31)?, known(Kind::Closed, 0));
    assert_eq!(rt; ask(2018, Month::December, 27)?, known(Kind::Full, 0));
    Ok(())
}

#[test]
fn easters(rt: HostRuntime) -> Result<(), Fail> {
    assert_eq!(rt; easter_sunday(2018), day_number(2018, Month::April, 1));
    assert_eq!(rt; easter_sunday(2049), day_number(2049, Month::April, 18));
    assert_eq!(rt; easter_sunday(2076), day_number(2076, Month::April, 19));
    assert_eq!(rt; easter_sunday(2100), day_number(2100, Month::March, 28));
    assert_eq!(rt; ask(2018, Month::March, 30)?, known(Kind::Closed, 3_600));
    assert_eq!(rt; ask(2018, Month::April, 2)?, known(Kind::Closed, 3_600));
    Ok(())
}

#[test]
fn neighbours(rt: HostRuntime) -> Result<(), Fail> {
    assert_eq!(rt;
        next_trading_day(&RuleCalendar, on(2018, Month::March, 29)?),
        Some(on(2018, Month::April, 3)?)
    );
    assert_eq!(rt;
        previous_trading_day(&RuleCalendar, on(2018, Month::April, 3)?),
        Some(on(2018, Month::March, 29)?)
    );
    assert_eq!(rt;
        previous_trading_day(&RuleCalendar, on(2000, Month::January, 3)?),
        None
    );
    assert_eq!(rt;
        next_trading_day(&RuleCalendar, on(2199, Month::December, 31)?),
        None
    );
    assert_eq!(rt; next_trading_day(&RuleCalendar, u32::MAX), None);
    assert_eq!(rt; previous_trading_day(&RuleCalendar, 0), None);
    assert!(rt;
        is_trading_day(&RuleCalendar, on(2018, Month::December, 24)?)
            && !is_trading_day(&RuleCalendar, on(2018, Month::March, 30)?)
    );
    Ok(())
}

#[test]
fn hours(rt: HostRuntime) -> Result<(), Fail> {
    let midnight = day_number(2018, Month::December, 24).saturating_mul(86_400);
    let hours = hours_of(&RuleCalendar, on(2018, Month::December, 24)?).ok_or("closed")?;
    assert_eq!(rt; hours.close, midnight.saturating_add(47_700));
    assert_eq!(rt; hours_of(&RuleCalendar, on(2018, Month::March, 30)?), None);
    assert_eq!(rt;
        hours_of(&RuleCalendar, on(2018, Month::March, 29)?),
        Some(Hours {
            opening: 1_522_301_400,
            noon: 1_522_320_900,
            close: 1_522_340_100,
        })
    );
    Ok(())
}
