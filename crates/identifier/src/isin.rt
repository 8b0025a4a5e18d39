//! Numbers of securities (ISO 6166).
ghost use Rattle.std.specs.Prelude.{◌≡◌, Decides};
ghost use Rattle.std.specs.Str.{bytes_eq};
ghost use Rattle.identifier.specs.Isin.{closes, is_isin, isin_answer};

use crate::class::{Class, value_of};
use crate::luhn::payload_sum;
use refusal::Refusal;

/// How many bytes an ISIN has.
const ISIN_LENGTH: usize = 12;

/// Twelve bytes that stand where an ISIN is expected, right or wrong.
#[derive(Clone, Copy, PartialEq, Eq, Debug)]
pub struct Isin {
    pub bytes: [u8; ISIN_LENGTH],
}

impl Isin {
    /// Refuses, as a wrong ISIN, whatever is not two letters, nine characters and the check digit that closes them.
    pub fn check(&self) -> Result<(), Refusal>
        ensures { result ≡ isin_answer self.now.bytes }
    {
        if is_isin(&self.bytes) {
            Ok(())
        } else {
            Err(Refusal::WrongIsin)
        }
    }

    // The word for `==` in clauses: exact by bytes, and by cases.
    /// Whether both have the same bytes.
    pub fn same(&self, other: &Isin) -> bool
        ensures value { result ≡ bytes_eq self.now.bytes other.now.bytes }
        ensures cases { Decides result (self.now.bytes ≡ other.now.bytes) }
    {
        self == other
    }
}

/// Whether the check digit closes the sum of the payload.
fn closes(payload: &[u8], check: u8) -> bool
    ensures { result ≡ closes payload.now check }
{
    (payload_sum(payload) + u32::from(value_of(check))) % 10 == 0
}

/// Whether the text is an ISIN.
#[tactic(auto, unfolding(crate::specs::Isin::is_isin))]
fn is_isin(text: &[u8; ISIN_LENGTH]) -> bool
    ensures { result ≡ is_isin text.now }
{
    Class::Letter.has_all(&text[0..2])
        && Class::Character.has_all(&text[2..11])
        && Class::Digit.has(text[11])
        && closes(&text[0..11], text[11])
}
