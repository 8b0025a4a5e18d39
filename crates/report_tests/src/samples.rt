//! A security and a report that nothing stands against.
use deferral::question::Class;
use identifier::{Counterparty, Isin, Member};
use report::report::{Capacity, Flags, Report, Side};
use report::security::{Security, Segment};

pub fn security() -> Security {
    Security {
        isin: Isin {
            bytes: *b"IE0000000004",
        },
        segment: Segment::Xmsm,
        class: Class::Equity,
        daily: 80_000,
        liquid: true,
        nliq_suspended: false,
        suspended: false,
        reference: 100_000,
        tolerance: 5_000,
        cap: 1_000,
    }
}

pub fn report() -> Report {
    Report {
        member: Member { bytes: *b"ABCDE" },
        isin: Isin {
            bytes: *b"IE0000000004",
        },
        segment: Segment::Xmsm,
        side: Side::Buy,
        price: 100_000,
        quantity: 1_000,
        execution: 1_525_770_000,
        capacity: Capacity::Deal,
        nodef: false,
        actx: false,
        benc: false,
        sdiv: false,
        waiver: None,
        flags: Flags::default(),
        counterparty: Counterparty::Lei(*b"0000000000000000A089"),
    }
}
