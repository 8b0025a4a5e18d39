//! Warnings, which refuse nothing.
ghost use Rattle.std.specs.Prelude.{◌≡◌};
ghost use Rattle.report.specs.Warned.{warned};

use super::report::{Report, Waiver};
use super::security::Security;

/// Is the price far from the reference, and the quantity over the cap?
#[derive(Clone, Copy, PartialEq, Eq, Debug)]
pub struct Warnings {
    pub price: bool,
    pub quantity: bool,
}

/// The warnings that a report draws; the waiver PRIC multiplies the tolerance by `expand`.
pub fn warnings_of(report: &Report, security: &Security, expand: u8) -> Warnings
    ensures { result ≡ warned report.now security.now expand }
{
    let factor = if report.waiver == Some(Waiver::Pric) {
        expand
    } else {
        1
    };
    let tolerated = u64::from(security.tolerance) * u64::from(factor);
    let reference = u64::from(security.reference);
    let price = u64::from(report.price);
    let usual = reference.saturating_sub(tolerated)..=reference + tolerated;
    Warnings {
        price: reference != 0 && !usual.contains(&price),
        quantity: report.quantity > security.cap,
    }
}
