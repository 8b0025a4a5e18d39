//! Numbers, and what is not one.
use reading::number::{NumberFlaw, read_number};

#[test]
fn numbers(rt: HostRuntime) {
    assert_eq!(rt; read_number(b"0"), Ok(0));
    assert_eq!(rt; read_number(b"9"), Ok(9));
    assert_eq!(rt; read_number(b"1525773540"), Ok(1_525_773_540));
    assert_eq!(rt; read_number(b"18446744073709551615"), Ok(u64::MAX));
}

#[test]
fn no_numbers(rt: HostRuntime) {
    assert_eq!(rt; read_number(b""), Err(NumberFlaw::Empty));
    assert_eq!(rt; read_number(b"1x"), Err(NumberFlaw::NoDigits));
    assert_eq!(rt; read_number(b"/"), Err(NumberFlaw::NoDigits));
    assert_eq!(rt; read_number(b":"), Err(NumberFlaw::NoDigits));
    assert_eq!(rt; read_number(b"-1"), Err(NumberFlaw::NoDigits));
    assert_eq!(rt; read_number(b"+1"), Err(NumberFlaw::NoDigits));
    assert_eq!(rt; read_number(b"0\xff"), Err(NumberFlaw::NoDigits));
    assert_eq!(rt; read_number(b"00"), Err(NumberFlaw::LeadingZero));
    assert_eq!(rt;
        read_number(b"018446744073709551616"),
        Err(NumberFlaw::LeadingZero)
    );
    assert_eq!(rt;
        read_number(b"18446744073709551616"),
        Err(NumberFlaw::TooLarge)
    );
    assert_eq!(rt;
        read_number(b"184467440737095516150"),
        Err(NumberFlaw::TooLarge)
    );
}
