//! Requests, and one for each fault.
use reading::request::{Fault, Request, read_request};
use std::alloc::Global;
use std::test::Fail;

/// Reads the words as a request.
fn request(heap: Global, words: &[&str]) -> Result<Result<Request, Fault>, Fail> {
    let texts: Vec<String> = words
        .iter()
        .map(|word| String::from_str(heap, word))
        .try_collect(heap)?;
    Ok(read_request(texts.as_slice()))
}

#[test]
fn requests(rt: HostRuntime) -> Result<(), Fail> {
    let heap = rt.alloc();
    assert_eq!(rt; request(heap, &["2018"])?, Ok(Request::Page(2018)));
    assert_eq!(rt;
        request(heap, &["2018", "--days"])?,
        Ok(Request::Days(2018, 2018))
    );
    assert_eq!(rt;
        request(heap, &["2000", "2199", "--days"])?,
        Ok(Request::Days(2000, 2199))
    );
    Ok(())
}

#[test]
fn faults(rt: HostRuntime) -> Result<(), Fail> {
    let heap = rt.alloc();
    assert_eq!(rt; request(heap, &[])?, Err(Fault::NoYear));
    assert_eq!(rt; request(heap, &["--days"])?, Err(Fault::NoYear));
    assert_eq!(rt; request(heap, &["02018"])?, Err(Fault::NoNumber));
    assert_eq!(rt; request(heap, &["+2018"])?, Err(Fault::NoNumber));
    assert_eq!(rt;
        request(heap, &["99999999999999999999"])?,
        Err(Fault::NoNumber)
    );
    assert_eq!(rt; request(heap, &["1999"])?, Err(Fault::OutOfRange(1999)));
    assert_eq!(rt; request(heap, &["2200"])?, Err(Fault::OutOfRange(2200)));
    assert_eq!(rt;
        request(heap, &["2018", "x", "--days"])?,
        Err(Fault::NoNumber)
    );
    assert_eq!(rt;
        request(heap, &["2019", "2018", "--days"])?,
        Err(Fault::Backwards(2019, 2018))
    );
    assert_eq!(rt; request(heap, &["2018", "2019"])?, Err(Fault::TooManyWords));
    assert_eq!(rt;
        request(heap, &["2018", "2019", "2020"])?,
        Err(Fault::TooManyWords)
    );
    assert_eq!(rt;
        request(heap, &["2018", "2019", "2020", "--days"])?,
        Err(Fault::TooManyWords)
    );
    Ok(())
}
