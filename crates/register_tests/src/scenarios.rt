//! What happens to four keys that rise, of any kind.
use register::answers::{Absent, PutError};
use register::{Key, Register};
use std::fmt::Debug;
use std::process::Abort;

pub fn small<K: Key + PartialEq + Debug + Drop>(rt: &impl Abort, [a, b, c, d]: [K; 4]) {
    let mut memory = [a; 4];
    let mut register = Register::new();
    assert_eq!(rt; register.smallest(&memory), None);
    assert_eq!(rt; register.largest(&memory), None);
    assert_eq!(rt; register.take_out(&mut memory, a), Err(Absent));
    assert_eq!(rt; register.put(&mut memory, c), Ok(()));
    assert_eq!(rt; register.put(&mut memory, a), Ok(()));
    assert_eq!(rt; register.put(&mut memory, b), Ok(()));
    assert_eq!(rt; register.put(&mut memory, b), Err(PutError::Present));
    assert_eq!(rt; register.smallest(&memory), Some(a));
    assert_eq!(rt; register.largest(&memory), Some(c));
    assert_eq!(rt; register.first_from(&memory, b), Some(b));
    assert_eq!(rt; register.first_from(&memory, d), None);
    assert_eq!(rt; register.last_before(&memory, b), Some(a));
    assert_eq!(rt; register.last_before(&memory, a), None);
    assert_eq!(rt; register.take_out(&mut memory, b), Ok(()));
    assert_eq!(rt; register.take_out(&mut memory, b), Err(Absent));
    assert_eq!(rt; register.first_from(&memory, b), Some(c));
    assert_eq!(rt; register.last_before(&memory, d), Some(c));
}

pub fn full<K: Key + PartialEq + Debug + Drop>(rt: &impl Abort, [a, b, c, d]: [K; 4]) {
    let mut memory = [d; 3];
    let mut register = Register::new();
    assert_eq!(rt; register.put(&mut memory, c), Ok(()));
    assert_eq!(rt; register.put(&mut memory, b), Ok(()));
    assert_eq!(rt; register.put(&mut memory, a), Ok(()));
    assert_eq!(rt; register.put(&mut memory, b), Err(PutError::Present));
    assert_eq!(rt; register.put(&mut memory, d), Err(PutError::Full));
    let places = &memory[..];
    assert_eq!(rt; places[0], a);
    assert_eq!(rt; places[2], c);
    assert_eq!(rt; register.drop_before(&mut memory, a), 0);
    assert_eq!(rt; register.drop_before(&mut memory, c), 2);
    assert_eq!(rt; register.smallest(&memory), Some(c));
    assert_eq!(rt; register.put(&mut memory, d), Ok(()));
    assert_eq!(rt; register.drop_before(&mut memory, d), 1);
    assert_eq!(rt; register.take_out(&mut memory, d), Ok(()));
    assert_eq!(rt; register.largest(&memory), None);
}

pub fn without_memory<K: Key + PartialEq + Debug + Drop>(rt: &impl Abort, a: K) {
    let mut memory = [a; 0];
    let mut register = Register::new();
    assert_eq!(rt; register.put(&mut memory, a), Err(PutError::Full));
    assert_eq!(rt; register.take_out(&mut memory, a), Err(Absent));
    assert_eq!(rt; register.smallest(&memory), None);
    assert_eq!(rt; register.largest(&memory), None);
    assert_eq!(rt; register.first_from(&memory, a), None);
    assert_eq!(rt; register.last_before(&memory, a), None);
    assert_eq!(rt; register.drop_before(&mut memory, a), 0);
}

// The register kept four keys, and is then lent a memory that is shorter and falls.
pub fn in_wild_memory<K: Key + PartialEq + Debug + Drop>(rt: &impl Abort, [a, b, c, d]: [K; 4]) {
    let mut memory = [a, b, c, d];
    let mut register = Register::new();
    for key in [d, c, b, a] {
        assert_eq!(rt; register.put(&mut memory, key), Ok(()));
    }
    let mut wild = [d, c];
    assert_eq!(rt; register.put(&mut wild, b), Err(PutError::Full));
    assert_eq!(rt; register.take_out(&mut wild, a), Err(Absent));
    let places = &wild[..];
    assert_eq!(rt; places[0], d);
    assert_eq!(rt; places[1], c);
    assert_eq!(rt; register.drop_before(&mut wild, a), 0);
    assert_eq!(rt; register.first_from(&wild, a), Some(d));
    assert_eq!(rt; register.last_before(&wild, a), None);
    assert_eq!(rt; register.smallest(&memory), Some(a));
    assert_eq!(rt; register.largest(&memory), Some(d));
}
