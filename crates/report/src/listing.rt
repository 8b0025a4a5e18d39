//! A security judged before it is listed.
ghost use Rattle.std.specs.Prelude.{◌≡◌};
ghost use Rattle.refusal.specs.Grounds.{first_ground, unless};
ghost use Rattle.report.specs.Listed.{listing_grounds};

use super::security::Security;
use refusal::Refusal;

const LARGEST_DAILY: u64 = 999_999_999_999;

const LARGEST: u32 = 999_999_999;

/// Refuses to list a security: for its ISIN, then for its numbers.
pub fn check_listing(security: &Security) -> Result<(), Refusal>
    ensures { result ≡ unless (first_ground (listing_grounds security.now)) tt }
{
    security.isin.check()?;
    let in_range = security.daily <= LARGEST_DAILY
        && security.reference <= LARGEST
        && security.tolerance <= LARGEST
        && (1..=LARGEST).contains(&security.cap);
    if in_range {
        Ok(())
    } else {
        Err(Refusal::ListingOutOfRange)
    }
}
