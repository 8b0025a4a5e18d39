//! A report judged against its security.
ghost use Rattle.std.specs.Prelude.{◌≡◌};
ghost use Rattle.std.specs.List.{count_by};
ghost use Rattle.refusal.specs.Grounds.{first_ground, unless};
ghost use Rattle.report.specs.Judged.{segment_number, flags_set, early_grounds, waiver_grounds, late_grounds};

use super::report::{Capacity, Flags, Report, Waiver};
use super::security::{Security, Segment};
use deferral::judgement::check_sizes;
use refusal::Refusal;

/// A report has at most so many flags.
const MOST_FLAGS: u8 = 3;

impl Segment {
    // By name and not by `From`: a segment is no number, it has one.
    /// The segment's place in the list of segments.
    pub fn number(self) -> u8
        ensures { result ≡ segment_number self }
    {
        self as u8
    }
}

/// How many of six are true.
fn how_many(six: &[bool; 6]) -> u8
    ensures { result ≡ count_by (λ set. set) six.now }
{
    six.iter().filter(|set| **set).count() as u8
}

impl Flags {
    /// How many of the flags are set.
    pub fn count(&self) -> u8
        ensures { result ≡ flags_set self.now }
    {
        how_many(&[self.ah, self.bb, self.cp, self.lt, self.rp, self.ss])
    }
}

/// Refuses what is judged before the execution moment: suspended, another segment, price or quantity, turnover.
pub fn check_early(report: &Report, security: &Security) -> Result<(), Refusal>
    ensures { result ≡ unless (first_ground (early_grounds report.now security.now)) tt }
{
    if security.suspended {
        return Err(Refusal::Suspended);
    }
    if report.segment != security.segment {
        return Err(Refusal::OtherSegment);
    }
    check_sizes(u64::from(report.price), u64::from(report.quantity))
}

/// Refuses a waiver that does not suit the security.
fn check_waiver(waiver: Option<Waiver>, security: &Security) -> Result<(), Refusal>
    ensures { result ≡ unless (first_ground (waiver_grounds waiver security.now)) tt }
{
    match waiver {
        Some(Waiver::Nliq) if !security.liquid => Err(Refusal::NegotiatedNotLiquid),
        Some(Waiver::Nliq) if security.nliq_suspended => Err(Refusal::NegotiatedSuspended),
        Some(Waiver::Oilq) if security.liquid => Err(Refusal::IlliquidButLiquid),
        _ => Ok(()),
    }
}

/// Refuses what is judged after the execution moment: flags, counterparty, waiver, riskless principal as agent.
pub fn check_late(report: &Report, security: &Security) -> Result<(), Refusal>
    ensures { result ≡ unless (first_ground (late_grounds report.now security.now)) tt }
{
    if report.flags.count() > MOST_FLAGS {
        return Err(Refusal::TooManyFlags);
    }
    report.counterparty.check()?;
    check_waiver(report.waiver, security)?;
    if report.flags.rp && report.capacity == Capacity::Aotc {
        return Err(Refusal::RisklessPrincipalAsAgent);
    }
    Ok(())
}
