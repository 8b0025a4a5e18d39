//! What every desk keeps.
ghost use Rattle.rulebook.specs.Sound.{SoundAlways};

/// A new desk is sound, and every call that is taken keeps a desk sound, whichever calendar and schedule it is lent.
#[tactic(auto, using(crate::proofs::SoundSteps::sound_new, crate::proofs::SoundSteps::sound_taken))]
pub fn sound_desks()
    ensures { SoundAlways }
{}
