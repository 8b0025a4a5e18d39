//! The lines of days.
use almanac::line::day_line;
use calendar::rule::RuleCalendar;
use std::test::Fail;

#[test]
fn a_trading_day(rt: HostRuntime) -> Result<(), Fail> {
    let line = day_line(rt.alloc(), &RuleCalendar, 17_619)?.ok_or("unknown")?;
    assert!(rt; line.as_str() == "2018-03-29 full 3600 1522301400 1522320900 1522340100");
    Ok(())
}

#[test]
fn a_closed_day(rt: HostRuntime) -> Result<(), Fail> {
    let line = day_line(rt.alloc(), &RuleCalendar, 17_620)?.ok_or("unknown")?;
    assert!(rt; line.as_str() == "2018-03-30 closed 3600 - - -");
    Ok(())
}

#[test]
fn a_half_day(rt: HostRuntime) -> Result<(), Fail> {
    let line = day_line(rt.alloc(), &RuleCalendar, 17_889)?.ok_or("unknown")?;
    assert!(rt; line.as_str() == "2018-12-24 half 0 1545633000 1545652500 1545657300");
    Ok(())
}

#[test]
fn an_unknown_day(rt: HostRuntime) -> Result<(), Fail> {
    assert!(rt; day_line(rt.alloc(), &RuleCalendar, 84_006)?.is_none());
    Ok(())
}
