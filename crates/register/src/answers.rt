//! Why a call that changes a register is refused.
ghost use Rattle.std.specs.Prelude.{Some};
ghost use Rattle.register.specs.Words.{put_words, absent_words};

use std::error::Error;
use std::fmt;

/// Why a key is not put.
#[derive(Clone, Copy, PartialEq, Eq, Debug)]
pub enum PutError {
    /// It is in already.
    Present,
    /// There is no place for it.
    Full,
}

/// The key that was to be taken out is not in.
#[derive(Clone, Copy, PartialEq, Eq, Debug)]
pub struct Absent;

impl fmt::Display for PutError {
    ghost output = { λ refusal. Some (put_words refusal) };

    fn fmt<W: fmt::Write>(&self, f: &mut fmt::Formatter<W>) -> fmt::Result {
        match self {
            PutError::Present => f.write_str("the key is in already"),
            PutError::Full => f.write_str("there is no place for the key"),
        }
    }
}

impl Error for PutError {}

impl fmt::Display for Absent {
    ghost output = { λ refusal. Some absent_words };

    fn fmt<W: fmt::Write>(&self, f: &mut fmt::Formatter<W>) -> fmt::Result {
        f.write_str("the key is not in")
    }
}

impl Error for Absent {}
