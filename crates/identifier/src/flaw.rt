//! What is wrong with a line.
ghost use Rattle.std.specs.Prelude.{◌≡◌, Some};
ghost use Rattle.identifier.specs.declared.flaw.Flaw.TheVariants.{Wrong};
ghost use Rattle.identifier.specs.Verdict.{written_flaw};

use refusal::Refusal;
use std::error::Error;
use std::fmt;

/// What is wrong with a line.
#[derive(Clone, Copy, PartialEq, Eq, Debug)]
pub enum Flaw {
    /// The text is refused on this ground.
    Wrong(Refusal),
    /// The text is too short or too long to be checked.
    WrongLength,
    /// The word is none of `ISIN`, `LEI` and `CODE`.
    WrongWord,
}

impl From<Refusal> for Flaw {
    ghost from_gives = { λ refusal flaw. flaw ≡ Wrong refusal };

    fn from(refusal: Refusal) -> Flaw {
        Flaw::Wrong(refusal)
    }
}

impl fmt::Display for Flaw {
    ghost output = { λ flaw. Some (written_flaw flaw) };

    fn fmt<W: fmt::Write>(&self, f: &mut fmt::Formatter<W>) -> fmt::Result {
        match self {
            Flaw::Wrong(ground) => write!(f, "wrong, {ground}"),
            Flaw::WrongLength => write!(f, "wrong length"),
            Flaw::WrongWord => write!(f, "wrong word"),
        }
    }
}

impl Error for Flaw {}
