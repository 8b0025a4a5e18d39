//! The other party to a trade.
ghost use Rattle.std.specs.Prelude.{◌≡◌, Decides};
ghost use Rattle.identifier.specs.Counterparty.{is_code, is_right, counterparty_answer, letter_of, with_letter};

use crate::class::Class;
use crate::lei::is_lei;
use refusal::Refusal;

/// How many bytes name a counterparty.
pub(crate) const PARTY_LENGTH: usize = 20;

/// What a report names the other party by, with its twenty bytes, right or wrong.
#[derive(Clone, Copy, PartialEq, Eq, Debug)]
pub enum Counterparty {
    /// A legal entity identifier.
    Lei([u8; PARTY_LENGTH]),
    /// A personal code, filled up with spaces.
    Code([u8; PARTY_LENGTH]),
}

impl Counterparty {
    // No `From`: letter and bytes come apart.
    /// The counterparty of the kind that the letter says, `N` or `D`; none for another letter.
    pub fn with_letter(letter: u8, bytes: [u8; PARTY_LENGTH]) -> Option<Counterparty>
        ensures { result ≡ with_letter letter bytes }
    {
        match letter {
            b'N' => Some(Counterparty::Lei(bytes)),
            b'D' => Some(Counterparty::Code(bytes)),
            _ => None,
        }
    }

    /// The letter of the kind.
    pub fn letter(&self) -> u8
        ensures { result ≡ letter_of self.now }
    {
        match self {
            Counterparty::Lei(_) => b'N',
            Counterparty::Code(_) => b'D',
        }
    }

    /// Refuses, as a wrong counterparty, bytes that are no LEI or no personal code, whichever they stand for.
    pub fn check(&self) -> Result<(), Refusal>
        ensures { result ≡ counterparty_answer self.now }
    {
        if self.is_right() {
            Ok(())
        } else {
            Err(Refusal::WrongCounterparty)
        }
    }

    /// Whether the bytes are what they stand for.
    #[tactic(auto, unfolding(crate::specs::Counterparty::is_right))]
    fn is_right(&self) -> bool
        ensures { result ≡ is_right self.now }
    {
        match self {
            Counterparty::Lei(text) => is_lei(text),
            Counterparty::Code(text) => is_code(text),
        }
    }

    // The word for `==` in clauses, by cases.
    /// Whether both are of one kind and have the same bytes.
    pub fn same(&self, other: &Counterparty) -> bool
        ensures { Decides result (self.now ≡ other.now) }
    {
        self == other
    }
}

/// Whether the text is a personal code.
fn is_code(text: &[u8]) -> bool
    ensures { result ≡ is_code text.now }
{
    let end = Class::Character.front(text);
    end > 0 && Class::Space.has_all(&text[end..])
}
