//! Lines that ask for a check: a word that says what the text after it should be, one space, and the text.
ghost use Rattle.std.specs.Prelude.{◌≡◌, ◌≤◌, ◌==◌, length, Ok, Err, if◌then◌else◌};
ghost use Rattle.identifier.specs.declared.flaw.Flaw.TheVariants.{WrongLength};
ghost use Rattle.identifier.specs.Line.{filled_up, isin_verdict, lei_verdict, code_verdict, judged_as, judged, word_of, text_of};

use crate::class::Class;
use crate::counterparty::{Counterparty, PARTY_LENGTH};
use crate::flaw::Flaw;
use crate::isin::Isin;

/// The text, then spaces.
fn filled_up(text: &[u8]) -> [u8; PARTY_LENGTH]
    requires { length text.now ≤ 20 }
    ensures { result ≡ filled_up 20 text.now }
{
    let mut bytes = [b' '; PARTY_LENGTH];
    bytes[0..text.len()].copy_from_slice(text);
    bytes
}

/// The text as an array, where it has just so many bytes.
fn exactly<const N: usize>(text: &[u8]) -> Result<[u8; N], Flaw>
    ensures { result ≡ (if length text.now == N then Ok text.now else Err WrongLength) }
{
    <[u8; N]>::try_from(text).map_err(|_| Flaw::WrongLength)
}

/// Judges a text that should be an ISIN.
fn judge_isin(text: &[u8]) -> Result<(), Flaw>
    ensures { result ≡ isin_verdict text.now }
{
    let bytes = exactly(text)?;
    Isin { bytes }.check()?;
    Ok(())
}

/// Judges a text that should be an LEI.
fn judge_lei(text: &[u8]) -> Result<(), Flaw>
    ensures { result ≡ lei_verdict text.now }
{
    Counterparty::Lei(exactly(text)?).check()?;
    Ok(())
}

/// Judges a text that should be a personal code.
fn judge_code(text: &[u8]) -> Result<(), Flaw>
    ensures { result ≡ code_verdict text.now }
{
    if text.is_empty() || text.len() > PARTY_LENGTH {
        return Err(Flaw::WrongLength);
    }
    Counterparty::Code(filled_up(text)).check()?;
    Ok(())
}

/// Judges a text by the word before it.
fn judge_as(word: &[u8], text: &[u8]) -> Result<(), Flaw>
    ensures { result ≡ judged_as word.now text.now }
{
    match word {
        b"ISIN" => judge_isin(text),
        b"LEI" => judge_lei(text),
        b"CODE" => judge_code(text),
        _ => Err(Flaw::WrongWord),
    }
}

/// The bytes before the first space, and those after it.
fn split_word(line: &[u8]) -> (&[u8], &[u8])
    ensures word { result.0.now ≡ word_of line.now }
    ensures text { result.1.now ≡ text_of line.now }
{
    let end = Class::Solid.front(line);
    (&line[..end], line.get(end + 1..).unwrap_or(&[]))
}

/// Judges a line: whether the text after its first word is what the word says.
pub fn judge(line: &[u8]) -> Result<(), Flaw>
    ensures { result ≡ judged line.now }
{
    let (word, text) = split_word(line);
    judge_as(word, text)
}
