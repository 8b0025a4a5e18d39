//! Warnings at their edges, and what is deferred and counted.
use crate::samples::{report, security};
use report::report::{Capacity, Report, Waiver};
use report::security::Security;
use report::warnings::warnings_of;

fn price_warns(price: u32, waiver: Option<Waiver>, security: Security) -> bool {
    warnings_of(
        &Report {
            price,
            waiver,
            ..report()
        },
        &security,
        3,
    )
    .price
}

#[test]
fn prices(rt: HostRuntime) {
    assert!(rt; !price_warns(95_000, None, security()) && price_warns(94_999, None, security()));
    assert!(rt; !price_warns(105_000, None, security()) && price_warns(105_001, None, security()));
    let wide = Some(Waiver::Pric);
    assert!(rt; !price_warns(85_000, wide, security()) && price_warns(84_999, wide, security()));
    assert!(rt; !price_warns(115_000, wide, security()) && price_warns(115_001, wide, security()));
    assert!(rt;
        !price_warns(
            1,
            None,
            Security {
                reference: 0,
                ..security()
            },
        )
    );
    assert!(rt;
        !price_warns(
            1,
            None,
            Security {
                tolerance: 100_001,
                ..security()
            },
        )
    );
}

#[test]
fn quantities(rt: HostRuntime) {
    assert!(rt; !warnings_of(&report(), &security(), 1).quantity);
    assert!(rt;
        warnings_of(
            &Report {
                quantity: 1_001,
                ..report()
            },
            &security(),
            1,
        )
        .quantity
    );
}

#[test]
fn deferral(rt: HostRuntime) {
    assert_eq!(rt; report().trade(&security()).quantity, 1_000);
    assert!(rt; report().may_defer());
    assert!(rt;
        !Report {
            nodef: true,
            ..report()
        }
        .may_defer()
    );
    assert!(rt;
        !Report {
            actx: true,
            ..report()
        }
        .may_defer()
    );
    assert!(rt;
        !Report {
            capacity: Capacity::Aotc,
            ..report()
        }
        .may_defer()
    );
}

#[test]
fn what_makes_prices(rt: HostRuntime) {
    assert!(rt;
        report().makes_prices()
            && Report {
                waiver: Some(Waiver::Lis),
                ..report()
            }
            .makes_prices()
    );
    assert!(rt;
        !Report {
            benc: true,
            ..report()
        }
        .makes_prices()
    );
    assert!(rt;
        !Report {
            sdiv: true,
            ..report()
        }
        .makes_prices()
    );
    assert!(rt;
        !Report {
            waiver: Some(Waiver::Pric),
            ..report()
        }
        .makes_prices()
    );
}
