//! Each ground at its edge, and the first of two.
use crate::samples::{report, security};
use identifier::{Counterparty, Isin};
use refusal::Refusal;
use report::judgement::{check_early, check_late};
use report::listing::check_listing;
use report::report::{Capacity, Flags, Report, Waiver};
use report::security::{Security, Segment};

fn early(report: Report, security: Security) -> Result<(), u8> {
    check_early(&report, &security).map_err(Refusal::number)
}

fn late(report: Report, security: Security) -> Result<(), u8> {
    check_late(&report, &security).map_err(Refusal::number)
}

fn listing(security: Security) -> Result<(), u8> {
    check_listing(&security).map_err(Refusal::number)
}

#[test]
fn listings(rt: HostRuntime) {
    assert_eq!(rt; listing(security()), Ok(()));
    assert_eq!(rt;
        listing(Security {
            isin: Isin {
                bytes: *b"IE0000000005",
            },
            cap: 0,
            ..security()
        }),
        Err(5)
    );
    assert_eq!(rt;
        listing(Security {
            cap: 0,
            ..security()
        }),
        Err(6)
    );
    assert_eq!(rt;
        listing(Security {
            cap: 1,
            ..security()
        }),
        Ok(())
    );
    assert_eq!(rt;
        listing(Security {
            cap: 1_000_000_000,
            ..security()
        }),
        Err(6)
    );
}

#[test]
fn numbers_of_a_listing(rt: HostRuntime) {
    assert_eq!(rt;
        listing(Security {
            daily: 999_999_999_999,
            reference: 999_999_999,
            tolerance: 999_999_999,
            ..security()
        }),
        Ok(())
    );
    assert_eq!(rt;
        listing(Security {
            daily: 1_000_000_000_000,
            ..security()
        }),
        Err(6)
    );
    assert_eq!(rt;
        listing(Security {
            reference: 1_000_000_000,
            ..security()
        }),
        Err(6)
    );
    assert_eq!(rt;
        listing(Security {
            tolerance: 1_000_000_000,
            ..security()
        }),
        Err(6)
    );
}

#[test]
fn before_the_execution_moment(rt: HostRuntime) {
    assert_eq!(rt; early(report(), security()), Ok(()));
    assert_eq!(rt;
        early(
            Report {
                segment: Segment::Xatl,
                ..report()
            },
            Security {
                suspended: true,
                ..security()
            },
        ),
        Err(13)
    );
    assert_eq!(rt;
        early(
            Report {
                segment: Segment::Xesm,
                price: 0,
                ..report()
            },
            security(),
        ),
        Err(14)
    );
}

#[test]
fn sizes(rt: HostRuntime) {
    assert_eq!(rt;
        early(
            Report {
                price: 0,
                ..report()
            },
            security(),
        ),
        Err(15)
    );
    assert_eq!(rt;
        early(
            Report {
                quantity: 1_000_000_000,
                ..report()
            },
            security(),
        ),
        Err(15)
    );
    assert_eq!(rt;
        early(
            Report {
                price: 1_000_000,
                quantity: 999_999_999,
                ..report()
            },
            security(),
        ),
        Ok(())
    );
    assert_eq!(rt;
        early(
            Report {
                price: 1_000_001,
                quantity: 999_999_999,
                ..report()
            },
            security(),
        ),
        Err(16)
    );
}

#[test]
fn flags_and_counterparties(rt: HostRuntime) {
    assert_eq!(rt; late(report(), security()), Ok(()));
    let three = Flags {
        ah: true,
        bb: true,
        ss: true,
        ..Flags::default()
    };
    assert_eq!(rt;
        late(
            Report {
                flags: three,
                ..report()
            },
            security(),
        ),
        Ok(())
    );
    let four = Flags { cp: true, ..three };
    let stranger = Counterparty::Lei(*b"0000000000000000A088");
    assert_eq!(rt;
        late(
            Report {
                flags: four,
                counterparty: stranger,
                ..report()
            },
            security(),
        ),
        Err(18)
    );
    assert_eq!(rt;
        late(
            Report {
                counterparty: stranger,
                waiver: Some(Waiver::Oilq),
                ..report()
            },
            security(),
        ),
        Err(19)
    );
}

#[test]
fn waivers(rt: HostRuntime) {
    let trade = Report {
        waiver: Some(Waiver::Nliq),
        ..report()
    };
    assert_eq!(rt; late(trade, security()), Ok(()));
    assert_eq!(rt;
        late(
            trade,
            Security {
                liquid: false,
                nliq_suspended: true,
                ..security()
            },
        ),
        Err(20)
    );
    assert_eq!(rt;
        late(
            trade,
            Security {
                nliq_suspended: true,
                ..security()
            },
        ),
        Err(21)
    );
}

#[test]
fn waivers_not_negotiated(rt: HostRuntime) {
    let illiquid = Report {
        waiver: Some(Waiver::Oilq),
        ..report()
    };
    assert_eq!(rt; late(illiquid, security()), Err(22));
    assert_eq!(rt;
        late(
            illiquid,
            Security {
                liquid: false,
                nliq_suspended: true,
                ..security()
            },
        ),
        Ok(())
    );
    assert_eq!(rt;
        late(
            Report {
                waiver: Some(Waiver::Lis),
                ..report()
            },
            security(),
        ),
        Ok(())
    );
}

#[test]
fn riskless_principal(rt: HostRuntime) {
    let riskless = Report {
        flags: Flags {
            rp: true,
            ..Flags::default()
        },
        ..report()
    };
    assert_eq!(rt; late(riskless, security()), Ok(()));
    assert_eq!(rt;
        late(
            Report {
                capacity: Capacity::Aotc,
                ..riskless
            },
            security(),
        ),
        Err(23)
    );
    assert_eq!(rt;
        late(
            Report {
                capacity: Capacity::Aotc,
                ..report()
            },
            security(),
        ),
        Ok(())
    );
}
