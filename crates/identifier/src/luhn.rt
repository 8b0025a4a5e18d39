//! The weighed sum of the digits of a text, in one pass from the left.
ghost use Rattle.std.specs.Prelude.{◌≡◌, ℕ, ◌%◌, ◌<◌, true, List, [], ◌∷◌, ◌++◌};
ghost use Rattle.identifier.specs.Characters.{digits_of};
ghost use Rattle.identifier.specs.Isin.{weight, payload_sum};
ghost use Rattle.identifier.specs.Luhn.{Weigh};

use crate::class::{Class, value_of};

/// The weighed sums of some digits, with the rightmost doubled and with it as it is; of each the last decimal digit.
#[derive(Clone, Copy)]
struct Sums {
    doubled: u32,
    plain: u32,
    ghost small: { (doubled < 10) × (plain < 10) },
}

// The flag chooses between the two weights of one digit, and the sums need both.
/// What a digit counts for: doubled, the sum of the digits of the product.
fn weight(doubled: bool, digit: u8) -> u32
    ensures { result ≡ weight doubled digit }
{
    let digit = u32::from(digit);
    if doubled {
        2 * digit / 10 + 2 * digit % 10
    } else {
        digit
    }
}

impl Sums {
    /// The sums of no digits.
    fn of_none() -> Sums
        ensures { Weigh result.doubled result.plain [] }
    {
        Sums {
            doubled: 0,
            plain: 0,
        }
    }

    /// The sums after one more digit on the right.
    fn after_digit(self, digit: u8) -> Sums
        ensures { (ds : List ℕ) → Weigh self.doubled self.plain ds → Weigh result.doubled result.plain (ds ++ digit ∷ []) }
    {
        let doubled = (self.plain + weight(true, digit)) % 10;
        let plain = (self.doubled + weight(false, digit)) % 10;
        Sums { doubled, plain }
    }

    /// The sums after one more character on the right.
    fn after(self, byte: u8) -> Sums
        ensures { (ds : List ℕ) → Weigh self.doubled self.plain ds → Weigh result.doubled result.plain (ds ++ digits_of byte) }
    {
        let value = value_of(byte);
        if Class::Letter.has(byte) {
            self.after_digit(value / 10).after_digit(value % 10)
        } else {
            self.after_digit(value)
        }
    }
}

/// The last decimal digit of the sum that a check digit has to close.
pub(crate) fn payload_sum(payload: &[u8]) -> u32
    ensures { result ≡ payload_sum payload.now % 10 }
{
    let mut sums = Sums::of_none();
    for byte in payload {
        sums = sums.after(*byte);
    }
    sums.doubled
}
