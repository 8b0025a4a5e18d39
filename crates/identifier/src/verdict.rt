//! What is found of a line, as it is written.
ghost use Rattle.std.specs.Prelude.{Some};
ghost use Rattle.identifier.specs.Verdict.{written};

use crate::flaw::Flaw;
use std::fmt;

/// What is found of a line, to be written.
#[derive(Clone, Copy, PartialEq, Eq, Debug)]
pub struct Verdict(pub Result<(), Flaw>);

impl fmt::Display for Verdict {
    ghost output = { λ verdict. Some (written verdict.0) };

    fn fmt<W: fmt::Write>(&self, f: &mut fmt::Formatter<W>) -> fmt::Result {
        match self.0 {
            Ok(()) => write!(f, "right"),
            Err(flaw) => write!(f, "{flaw}"),
        }
    }
}
