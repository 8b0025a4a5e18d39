//! What can be wrong with a line of input.
ghost use Rattle.std.specs.Prelude.{◌≡◌, Some};
ghost use Rattle.publication_time.specs.declared.fault.Fault.TheVariants.{Flawed};
ghost use Rattle.publication_time.specs.Told.{fault_text};

use reading::flaw::Flaw;
use std::fmt;

/// Why a line cannot be read.
#[derive(Clone, Copy, PartialEq, Eq, Debug)]
pub enum Fault {
    /// Its bytes are not UTF-8.
    NotText,
    /// Its words are not those of a trade.
    Flawed(Flaw),
}

impl From<Flaw> for Fault {
    ghost from_gives = { λ flaw fault. fault ≡ Flawed flaw };

    fn from(flaw: Flaw) -> Fault {
        Fault::Flawed(flaw)
    }
}

impl fmt::Display for Fault {
    ghost output = { λ fault. Some (fault_text fault) };

    fn fmt<W: fmt::Write>(&self, f: &mut fmt::Formatter<W>) -> fmt::Result {
        match self {
            Fault::NotText => write!(f, "it is not text"),
            Fault::Flawed(told) => write!(f, "{told}"),
        }
    }
}

impl std::error::Error for Fault {}
