//! Trades judged at the clock: tiers 3 and 4 over half days, changes of the clock and Easter, and each ground at its edge.
use calendar::rule::RuleCalendar;
use civil::date::day_number;
use civil::month::Month;
use deferral::annex::AnnexTwo;
use deferral::judgement::judge_trade;
use deferral::question::Class;
use deferral::trade::Trade;
use refusal::Refusal;

fn at(year: u32, month: Month, day: u32, hour: u64, minute: u64) -> u64 {
    day_number(year, month, day)
        .saturating_mul(86_400)
        .saturating_add(hour.saturating_mul(3_600))
        .saturating_add(minute.saturating_mul(60))
}

/// An equity of average daily turnover 40,000 EUR at 1 EUR: 7,500 is tier 1, 15,000 tier 2 and 25,000 tier 4; at 60,000 EUR,
/// 50,000 is tier 3.
fn trade(daily: u64, quantity: u64, execution: u64) -> Trade {
    Trade {
        class: Class::Equity,
        daily,
        price: 10_000,
        quantity,
        execution,
        deferrable: true,
    }
}

/// The moment at which the trade may be seen.
fn moment(clock: u64, trade: Trade) -> Result<u64, Refusal> {
    judge_trade(&RuleCalendar, &AnnexTwo, clock, &trade).map(|publication| publication.moment)
}

/// The moment, or the number of the ground.
fn numbered(clock: u64, trade: Trade) -> Result<u64, u8> {
    moment(clock, trade).map_err(|refusal| refusal.number())
}

#[test]
fn one_and_two_hours(rt: HostRuntime) {
    let execution = at(2018, Month::May, 8, 9, 59);
    assert_eq!(rt;
        moment(
            at(2018, Month::May, 8, 10, 0),
            trade(50_000, 15_000, execution),
        ),
        Ok(at(2018, Month::May, 8, 10, 59))
    );
    assert_eq!(rt;
        moment(
            at(2018, Month::May, 8, 12, 0),
            trade(50_000, 15_000, execution),
        ),
        Ok(at(2018, Month::May, 8, 12, 0))
    );
    assert_eq!(rt;
        moment(
            at(2018, Month::May, 8, 10, 0),
            trade(49_999, 15_000, execution),
        ),
        Ok(at(2018, Month::May, 8, 11, 59))
    );
    let agency = Trade {
        deferrable: false,
        ..trade(49_999, 25_000, execution)
    };
    assert_eq!(rt;
        moment(at(2018, Month::May, 8, 10, 0), agency),
        Ok(at(2018, Month::May, 8, 10, 0))
    );
}

#[test]
fn before_easter(rt: HostRuntime) {
    let early = at(2018, Month::March, 29, 14, 14);
    let late = at(2018, Month::March, 29, 14, 15);
    assert_eq!(rt;
        moment(late, trade(60_000, 50_000, early)),
        Ok(at(2018, Month::March, 29, 16, 15))
    );
    assert_eq!(rt;
        moment(late, trade(60_000, 50_000, late)),
        Ok(at(2018, Month::April, 3, 10, 55))
    );
    assert_eq!(rt;
        moment(late, trade(40_000, 25_000, early)),
        Ok(at(2018, Month::April, 3, 16, 15))
    );
}

#[test]
fn half_days(rt: HostRuntime) {
    let early = at(2018, Month::December, 24, 11, 14);
    let late = at(2018, Month::December, 24, 11, 15);
    assert_eq!(rt;
        moment(late, trade(60_000, 50_000, early)),
        Ok(at(2018, Month::December, 24, 13, 15))
    );
    assert_eq!(rt;
        moment(late, trade(60_000, 50_000, late)),
        Ok(at(2018, Month::December, 27, 11, 55))
    );
    let before = at(2018, Month::December, 21, 16, 0);
    assert_eq!(rt;
        moment(before, trade(40_000, 25_000, before)),
        Ok(at(2018, Month::December, 24, 13, 15))
    );
}

#[test]
fn changes_of_the_clock(rt: HostRuntime) {
    let spring = at(2018, Month::March, 23, 16, 0);
    assert_eq!(rt;
        moment(spring, trade(60_000, 50_000, spring)),
        Ok(at(2018, Month::March, 26, 10, 55))
    );
    let autumn = at(2018, Month::October, 26, 15, 0);
    assert_eq!(rt;
        moment(autumn, trade(60_000, 50_000, autumn)),
        Ok(at(2018, Month::October, 29, 11, 55))
    );
    assert_eq!(rt;
        moment(autumn, trade(40_000, 25_000, autumn)),
        Ok(at(2018, Month::October, 29, 17, 15))
    );
}

#[test]
fn executed_on_the_trading_day_before(rt: HostRuntime) {
    let execution = at(2018, Month::March, 29, 16, 0);
    let clock = at(2018, Month::April, 3, 9, 0);
    assert_eq!(rt;
        moment(clock, trade(60_000, 50_000, execution)),
        Ok(at(2018, Month::April, 3, 10, 55))
    );
    assert_eq!(rt; moment(clock, trade(60_000, 15_000, execution)), Ok(clock));
    assert_eq!(rt;
        numbered(
            clock,
            trade(60_000, 50_000, at(2018, Month::March, 28, 16, 0)),
        ),
        Err(17)
    );
    assert_eq!(rt;
        numbered(
            clock,
            trade(60_000, 50_000, at(2018, Month::March, 30, 9, 0)),
        ),
        Err(17)
    );
}

#[test]
fn grounds_in_their_order(rt: HostRuntime) {
    let clock = at(2018, Month::May, 8, 10, 0);
    assert_eq!(rt;
        numbered(at(2018, Month::May, 6, 10, 0), trade(0, 0, 0)),
        Err(8)
    );
    assert_eq!(rt;
        numbered(at(2000, Month::January, 3, 10, 0), trade(0, 0, 0)),
        Err(9)
    );
    assert_eq!(rt;
        numbered(at(2199, Month::December, 31, 10, 0), trade(0, 0, 0)),
        Err(9)
    );
    assert_eq!(rt;
        numbered(at(2018, Month::May, 8, 5, 29), trade(0, 0, 0)),
        Err(11)
    );
    assert_eq!(rt;
        numbered(at(2018, Month::May, 8, 16, 15), trade(0, 0, 0)),
        Err(11)
    );
    assert_eq!(rt; numbered(clock, trade(0, 0, 0)), Err(15));
    assert_eq!(rt; numbered(clock, trade(0, 999_999_999, 0)), Err(17));
    let large = Trade {
        price: 1_000_001,
        ..trade(0, 999_999_999, 0)
    };
    assert_eq!(rt; numbered(clock, large), Err(16));
    assert_eq!(rt;
        numbered(clock, trade(0, 1, clock.saturating_add(1))),
        Err(17)
    );
    assert_eq!(rt; numbered(clock, trade(0, 1, clock)), Ok(clock));
}
