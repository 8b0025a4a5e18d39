//! The moment of publication.
ghost use Rattle.std.specs.Prelude.{◌≡◌, ◌-◌, ◌^◌, min};
ghost use Rattle.deferral.specs.Publication.{publication};

use super::deadlines::Deadlines;
use super::tier::Tier;

const ONE_HOUR: u64 = 3_600;

const TWO_HOURS: u64 = 7_200;

// Clock and execution moment are two parameters: only this function and `deadlines_for` take both.
/// The later of the tier's moment and the clock. A moment past the largest number there is becomes that number.
pub fn publication_moment(deadlines: &Deadlines, clock: u64, execution: u64, tier: Tier) -> u64
    ensures { result ≡ min (publication deadlines.now clock execution tier) (2 ^ 64 - 1) }
{
    let deferred = match tier {
        Tier::Zero => 0,
        Tier::One => execution.saturating_add(ONE_HOUR),
        Tier::Two => execution.saturating_add(TWO_HOURS),
        Tier::Three => if execution.saturating_add(TWO_HOURS) < deadlines.close {
            deadlines.close
        } else {
            deadlines.next.noon
        },
        Tier::Four => deadlines.next.close,
    };
    deferred.max(clock)
}
