//! How flaws and faults are written.
use reading::flaw::{Field, Flaw};
use reading::request::Fault;
use std::test::Fail;

#[test]
fn messages(rt: HostRuntime) -> Result<(), Fail> {
    let flaw = Flaw::Missing(Field::Daily);
    assert_eq!(rt;
        format!(in rt.alloc(); "{flaw}")?.as_str(),
        "ADT is missing"
    );
    let fault = Fault::Backwards(2019, 2018);
    assert_eq!(rt;
        format!(in rt.alloc(); "{fault}")?.as_str(),
        "the first year, 2019, is after the last, 2018"
    );
    Ok(())
}
