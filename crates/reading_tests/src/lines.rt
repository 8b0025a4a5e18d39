//! Lines, and one for each flaw.
use deferral::question::Class;
use deferral::trade::Trade;
use reading::flaw::{Field, Flaw};
use reading::line::{Asked, read_line};

/// What a right line says.
fn asked(class: Class, deferrable: bool) -> Asked {
    Asked {
        trade: Trade {
            class,
            daily: 50_000,
            price: 10_000,
            quantity: 15_000,
            execution: 60,
            deferrable,
        },
        clock: 120,
    }
}

#[test]
fn lines(rt: HostRuntime) {
    assert_eq!(rt;
        read_line(b"E 50000 10000 15000 60 120 D"),
        Ok(asked(Class::Equity, true))
    );
    assert_eq!(rt;
        read_line(b"F 50000 10000 15000 60 120 N"),
        Ok(asked(Class::Etf, false))
    );
}

#[test]
fn wrong_words(rt: HostRuntime) {
    assert_eq!(rt;
        read_line(b"X 50000 10000 15000 60 120 D"),
        Err(Flaw::WrongClass)
    );
    assert_eq!(rt;
        read_line(b"EE 50000 10000 15000 60 120 D"),
        Err(Flaw::WrongClass)
    );
    assert_eq!(rt;
        read_line(b"E 5x 10000 15000 60 120 D"),
        Err(Flaw::NoNumber(Field::Daily))
    );
    assert_eq!(rt;
        read_line(b"E 50000 010000 15000 60 120 D"),
        Err(Flaw::LeadingZero(Field::Price))
    );
    assert_eq!(rt;
        read_line(b"E 50000 10000 99999999999999999999 60 120 D"),
        Err(Flaw::TooLarge(Field::Quantity))
    );
    assert_eq!(rt;
        read_line(b"E 50000 10000 15000 \xff 120 D"),
        Err(Flaw::NoNumber(Field::Execution))
    );
    assert_eq!(rt;
        read_line(b"E 50000 10000 15000 60 -1 D"),
        Err(Flaw::NoNumber(Field::Clock))
    );
    assert_eq!(rt;
        read_line(b"E 50000 10000 15000 60 120 d"),
        Err(Flaw::WrongMark)
    );
    assert_eq!(rt;
        read_line(b"E 50000 10000 15000 60 120 D D"),
        Err(Flaw::TooManyWords)
    );
    assert_eq!(rt;
        read_line(b"E 50000 10000 15000 60 120 D "),
        Err(Flaw::TooManyWords)
    );
}

#[test]
fn missing_words(rt: HostRuntime) {
    assert_eq!(rt; read_line(b""), Err(Flaw::Missing(Field::Class)));
    assert_eq!(rt;
        read_line(b" E 50000 10000 15000 60 120 D"),
        Err(Flaw::Missing(Field::Class))
    );
    assert_eq!(rt; read_line(b"E"), Err(Flaw::Missing(Field::Daily)));
    assert_eq!(rt; read_line(b"E 50000 "), Err(Flaw::Missing(Field::Price)));
    assert_eq!(rt;
        read_line(b"E 50000 10000"),
        Err(Flaw::Missing(Field::Quantity))
    );
    assert_eq!(rt;
        read_line(b"E 50000 10000 15000  60 120 D"),
        Err(Flaw::Missing(Field::Execution))
    );
    assert_eq!(rt;
        read_line(b"E 50000 10000 15000 60"),
        Err(Flaw::Missing(Field::Clock))
    );
    assert_eq!(rt;
        read_line(b"E 50000 10000 15000 60 120"),
        Err(Flaw::Missing(Field::Mark))
    );
}

#[test]
fn the_leftmost_is_told(rt: HostRuntime) {
    assert_eq!(rt; read_line(b"X 050"), Err(Flaw::WrongClass));
    assert_eq!(rt;
        read_line(b"E 050 10000 -1 60 120 X X"),
        Err(Flaw::LeadingZero(Field::Daily))
    );
    assert_eq!(rt;
        read_line(b"E 50000 10000 15000 60 120 X X"),
        Err(Flaw::WrongMark)
    );
}
