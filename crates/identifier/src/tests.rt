//! Published identifiers, and what is not one.
use crate::{Counterparty, Isin, Member, Verdict, judge};
use refusal::Refusal;
use std::alloc::Global;
use std::process::Abort;
use std::test::Fail;

fn isin(bytes: [u8; 12]) -> Result<(), Refusal> {
    Isin { bytes }.check()
}

fn found(rt: &impl Abort, heap: Global, line: &[u8], words: &str) -> Result<(), Fail> {
    let verdict = Verdict(judge(line));
    assert_eq!(rt; format!(in heap; "{verdict}")?.as_str(), words);
    Ok(())
}

#[test]
fn isins(rt: HostRuntime) {
    assert_eq!(rt; isin(*b"US0378331005"), Ok(()));
    assert_eq!(rt; isin(*b"AU0000XVGZA3"), Ok(()));
    assert_eq!(rt; isin(*b"US0378331006"), Err(Refusal::WrongIsin));
    assert_eq!(rt; isin(*b"USO378331005"), Err(Refusal::WrongIsin));
    assert_eq!(rt; isin([255; 12]), Err(Refusal::WrongIsin));
}

#[test]
fn counterparties(rt: HostRuntime) {
    let text = *b"7LTWFZYICNSX8D621K86";
    assert_eq!(rt; Counterparty::Lei(text).check(), Ok(()));
    assert_eq!(rt; Counterparty::Code(text).check(), Ok(()));
    assert_eq!(rt;
        Counterparty::Lei(*b"7LTWFZYICNSX8D621K68").check(),
        Err(Refusal::WrongCounterparty)
    );
    assert_eq!(rt;
        Counterparty::Lei([255; 20]).check(),
        Err(Refusal::WrongCounterparty)
    );
    assert_eq!(rt;
        Counterparty::Code([255; 20]).check(),
        Err(Refusal::WrongCounterparty)
    );
    assert_eq!(rt; Counterparty::Code(text).letter(), b'D');
    assert_eq!(rt; Counterparty::with_letter(b'X', text), None);
}

#[test]
fn compared_by_bytes(rt: HostRuntime) {
    let text = [7; 20];
    assert!(rt; Counterparty::Lei(text).same(&Counterparty::Lei(text)));
    assert!(rt; !Counterparty::Lei(text).same(&Counterparty::Code(text)));
    assert!(rt; !Counterparty::Code(text).same(&Counterparty::Code([8; 20])));
    assert!(rt; Member { bytes: [7; 5] }.same(&Member { bytes: [7; 5] }));
    assert!(rt; !Isin { bytes: [7; 12] }.same(&Isin { bytes: [8; 12] }));
}

#[test]
fn lines(rt: HostRuntime) -> Result<(), Fail> {
    found(&rt, rt.alloc(), b"ISIN IE0000000005", "wrong, 5")?;
    found(&rt, rt.alloc(), b"LEI 0000000000000000A089", "right")?;
    found(&rt, rt.alloc(), b"CODE", "wrong length")?;
    found(&rt, rt.alloc(), b"", "wrong word")
}
