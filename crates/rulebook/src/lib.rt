//! The rules over histories of calls: what the calls are, what they answer, and the laws that hold after every history.

#![tactic(auto)]

pub mod call;
pub mod example;
pub mod falls_out;
pub mod former;
pub mod gaps;
pub mod larger;
pub mod pair;
pub mod record;
pub mod soundness;
pub mod trace;
