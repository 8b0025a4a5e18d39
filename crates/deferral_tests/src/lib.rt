//! Tests of the schedules and of publication on examples.

#![tactic(auto)]

#[cfg(test)]
mod judgements;
#[cfg(test)]
mod tiers;
