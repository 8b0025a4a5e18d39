//! Numbers in decimal digits.
ghost use Rattle.std.specs.Prelude.{◌≡◌, ◌+◌, ◌*◌};
ghost use Rattle.std.specs.List.{list_all};
ghost use Rattle.reading.specs.Number.{is_digit, digit_of, decimal_value, leads_with_zero, fitting, number_read};

// No `Display`: a reader tells it as a `Flaw` of a field, or as a `Fault`.
/// Why a word is not a number.
#[derive(Clone, Copy, PartialEq, Eq, Debug)]
pub enum NumberFlaw {
    /// There is nothing in it.
    Empty,
    /// A byte of it is not a digit.
    NoDigits,
    /// It begins with 0, and goes on.
    LeadingZero,
    /// It has more than 64 bits.
    TooLarge,
}

/// Is the byte a digit?
fn is_digit(byte: u8) -> bool
    ensures { result ≡ is_digit byte }
{
    byte.is_ascii_digit()
}

/// Is each byte a digit?
fn has_only_digits(word: &[u8]) -> bool
    ensures { result ≡ list_all is_digit word.now }
{
    word.iter().all(|byte| is_digit(*byte))
}

/// Does the word begin with 0, and go on?
fn leads_with_zero(word: &[u8]) -> bool
    ensures { result ≡ leads_with_zero word.now }
{
    matches!(word, [b'0', _, ..])
}

/// The value with one more digit on its right, where it fits.
fn with_digit(value: u64, byte: u8) -> Option<u64>
    ensures { result ≡ fitting (value * 10 + digit_of byte) }
{
    value
        .checked_mul(10)?
        .checked_add(u64::from(byte.saturating_sub(b'0')))
}

/// The decimal value of a word, where it fits.
fn decimal_value(word: &[u8]) -> Option<u64>
    ensures { result ≡ fitting (decimal_value word.now) }
{
    // A loop: std has no lemma on what `try_fold` says, and its contract alone does not give the value.
    let mut value = 0;
    for byte in word {
        value = with_digit(value, *byte)?;
    }
    Some(value)
}

/// Reads a word as a number: digits without sign or leading zeros, of at most 64 bits.
pub fn read_number(word: &[u8]) -> Result<u64, NumberFlaw>
    ensures { result ≡ number_read word.now }
{
    if word.is_empty() {
        return Err(NumberFlaw::Empty);
    }
    if !has_only_digits(word) {
        return Err(NumberFlaw::NoDigits);
    }
    if leads_with_zero(word) {
        return Err(NumberFlaw::LeadingZero);
    }
    decimal_value(word).ok_or(NumberFlaw::TooLarge)
}
