//! The flat schedule: four amounts that serve all securities.
ghost use Rattle.std.specs.Prelude.{◌≤◌};

/// Amounts in EUR for tiers 1 to 4, which never fall from one to the next.
#[derive(Clone, Copy)]
pub struct Flat {
    pub(crate) first: u64,
    pub(crate) second: u64,
    pub(crate) third: u64,
    pub(crate) fourth: u64,
    ghost ordered: { (first ≤ second) × (second ≤ third) × (third ≤ fourth) },
}
