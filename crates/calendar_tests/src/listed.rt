//! The calendar from a list.
use super::rule::known;
use calendar::calendar::Calendar;
use calendar::day::{Kind, ListedDay};
use calendar::listed::ListedCalendar;
use calendar::neighbour::{next_trading_day, previous_trading_day};
use refusal::Refusal;

const WEEK: [ListedDay; 3] = [
    ListedDay {
        day: 17_600,
        kind: Kind::Full,
        offset: 0,
    },
    ListedDay {
        day: 17_603,
        kind: Kind::Half,
        offset: 3_600,
    },
    ListedDay {
        day: 17_610,
        kind: Kind::Full,
        offset: 0,
    },
];

fn reading(first: u32, last: u32, days: &[ListedDay]) -> Result<(), Refusal> {
    let mut calendar = ListedCalendar::new();
    calendar.read(first, last, days)
}

#[test]
fn a_list_is_read(rt: HostRuntime) {
    let mut calendar = ListedCalendar::new();
    assert_eq!(rt; calendar.ask(17_600), None);
    assert_eq!(rt; calendar.read(17_600, 17_620, &WEEK), Ok(()));
    assert_eq!(rt; calendar.ask(17_599), None);
    assert_eq!(rt; calendar.ask(17_600), known(Kind::Full, 0));
    assert_eq!(rt; calendar.ask(17_601), known(Kind::Closed, 0));
    assert_eq!(rt; calendar.ask(17_603), known(Kind::Half, 3_600));
    assert_eq!(rt; calendar.ask(17_620), known(Kind::Closed, 0));
    assert_eq!(rt; calendar.ask(17_621), None);
    assert_eq!(rt; next_trading_day(&calendar, 17_603), Some(17_610));
    assert_eq!(rt; next_trading_day(&calendar, 17_610), None);
}

#[test]
fn a_list_makes_a_calendar(rt: HostRuntime) -> Result<(), Refusal> {
    let calendar = ListedCalendar::of(17_600, 17_620, &WEEK)?;
    assert_eq!(rt; calendar.ask(17_599), None);
    assert_eq!(rt; calendar.ask(17_602), known(Kind::Closed, 0));
    assert_eq!(rt; calendar.ask(17_603), known(Kind::Half, 3_600));
    assert_eq!(rt; previous_trading_day(&calendar, 17_610), Some(17_603));
    assert!(rt; ListedCalendar::of(17_601, 17_620, &WEEK).is_err());
    Ok(())
}

#[test]
fn an_empty_list_is_closed(rt: HostRuntime) {
    let mut calendar = ListedCalendar::new();
    assert_eq!(rt; calendar.read(17_600, 17_600, &[]), Ok(()));
    assert_eq!(rt; calendar.ask(17_600), known(Kind::Closed, 0));
}

#[test]
fn a_refused_list_changes_nothing(rt: HostRuntime) {
    let mut calendar = ListedCalendar::new();
    assert_eq!(rt; calendar.read(17_600, 17_620, &WEEK), Ok(()));
    assert_eq!(rt;
        calendar.read(17_601, 17_620, &WEEK),
        Err(Refusal::WrongCalendar)
    );
    assert_eq!(rt; calendar.ask(17_600), known(Kind::Full, 0));
}

#[test]
fn spans_are_refused(rt: HostRuntime) {
    assert_eq!(rt; reading(17_601, 17_600, &[]), Err(Refusal::WrongCalendar));
    assert_eq!(rt; reading(10_956, 17_600, &[]), Err(Refusal::WrongCalendar));
    assert_eq!(rt; reading(10_957, 84_006, &[]), Err(Refusal::WrongCalendar));
    assert_eq!(rt; reading(10_957, 84_005, &WEEK), Ok(()));
    assert_eq!(rt; reading(17_601, 17_620, &WEEK), Err(Refusal::WrongCalendar));
    assert_eq!(rt; reading(17_600, 17_609, &WEEK), Err(Refusal::WrongCalendar));
}

#[test]
fn lists_are_refused(rt: HostRuntime) {
    let twice = [WEEK[0], WEEK[0]];
    assert_eq!(rt;
        reading(17_600, 17_620, &twice),
        Err(Refusal::WrongCalendar)
    );
    let falling = [WEEK[1], WEEK[0]];
    assert_eq!(rt;
        reading(17_600, 17_620, &falling),
        Err(Refusal::WrongCalendar)
    );
    let closed = [ListedDay {
        day: 17_600,
        kind: Kind::Closed,
        offset: 0,
    }];
    assert_eq!(rt;
        reading(17_600, 17_620, &closed),
        Err(Refusal::WrongCalendar)
    );
    let offset = [ListedDay {
        day: 17_600,
        kind: Kind::Full,
        offset: 1_800,
    }];
    assert_eq!(rt;
        reading(17_600, 17_620, &offset),
        Err(Refusal::WrongCalendar)
    );
}
