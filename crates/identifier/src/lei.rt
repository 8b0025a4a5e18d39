//! The check of an LEI (ISO 17442).
ghost use Rattle.std.specs.Prelude.{◌≡◌, ℕ, ◌%◌, ◌<◌, List, ◌++◌, if◌then◌else◌};
ghost use Rattle.std.specs.Int.Digits.{number_from_digits};
ghost use Rattle.identifier.specs.Characters.{between, digits_of, is_letter};
ghost use Rattle.identifier.specs.Counterparty.{is_lei, as_number, check_number};

use crate::class::{Class, value_of};
use crate::counterparty::PARTY_LENGTH;

/// What a number is divided by to check it.
const DIVISOR: u32 = 97;

/// The least number that two check digits make; 0 and 1 leave the same as 97 and 98.
const LEAST_CHECK: u32 = 2;

/// The largest; 99 leaves the same as 2.
const LARGEST_CHECK: u32 = 98;

/// How far a character moves the digits before it: two places for a letter, one for a digit.
fn shift_of(byte: u8) -> u32
    ensures { result ≡ (if is_letter byte then 100 else 10) }
{
    if Class::Letter.has(byte) { 100 } else { 10 }
}

/// What a number leaves on division.
fn left_of(dividend: u32) -> u32
    ensures { result ≡ dividend % 97 }
{
    dividend % DIVISOR
}

/// The remainder of a number after one more character on its right, from the remainder before.
#[tactic(auto, using(crate::proofs::Texts::kept_after))]
fn remainder_after(remainder: u32, byte: u8) -> u32
    requires { remainder < 97 }
    ensures { (ds : List ℕ) → remainder ≡ number_from_digits 10 ds % 97 → result ≡ number_from_digits 10 (ds ++ digits_of byte) % 97 }
{
    left_of(remainder * shift_of(byte) + u32::from(value_of(byte)))
}

/// What the text, as one number, leaves on division.
fn remainder_of(text: &[u8]) -> u32
    ensures { result ≡ as_number text.now % 97 }
{
    let mut remainder = 0;
    for byte in text {
        remainder = remainder_after(remainder, *byte);
    }
    remainder
}

/// Whether the last two, as a number, can be check digits.
fn has_check_number(text: &[u8; PARTY_LENGTH]) -> bool
    ensures { result ≡ between 2 98 (check_number text.now) }
{
    let check = 10 * u32::from(value_of(text[18])) + u32::from(value_of(text[19]));
    (LEAST_CHECK..=LARGEST_CHECK).contains(&check)
}

/// Whether the text is an LEI.
pub(crate) fn is_lei(text: &[u8; PARTY_LENGTH]) -> bool
    ensures { result ≡ is_lei text.now }
{
    Class::Character.has_all(&text[0..18])
        && Class::Digit.has_all(&text[18..20])
        && has_check_number(text)
        && remainder_of(text) == 1
}
