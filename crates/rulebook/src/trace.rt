//! No trace of a deferred trade.
ghost use Rattle.rulebook.specs.Trace.{NoTrace};

/// Answers nothing; its contract states that a trade which is still deferred leaves no trace in public.
#[tactic(auto, using(crate::proofs::Untraced::no_trace))]
pub fn no_trace()
    ensures { NoTrace }
{}
