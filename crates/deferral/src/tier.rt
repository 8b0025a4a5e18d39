//! The tiers of deferral.
ghost use Rattle.std.specs.Prelude.{◌≡◌};
ghost use Rattle.deferral.specs.Tiers.{tier_number};

/// How long publication is deferred: not at all, or by the rule of one of four tiers.
#[derive(Clone, Copy, PartialEq, Eq, Debug)]
pub enum Tier {
    Zero,
    One,
    Two,
    Three,
    Four,
}

impl Tier {
    // By name and not by `From`: a tier is no number, it has one.
    /// The tier's number.
    pub fn number(self) -> u8
        ensures { result ≡ tier_number self }
    {
        self as u8
    }
}
