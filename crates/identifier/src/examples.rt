//! Worked examples of the rules, as facts of the definitions that the checks are held to.
ghost use Rattle.identifier.specs.Examples.{Examples};

/// Stands on its contract: each worked example comes out as listed.
#[tactic(auto, unfolding(crate::specs::Isin::is_isin, crate::specs::Counterparty::is_right))]
pub fn examples_stand()
    ensures { Examples }
{}
