//! How long a trade may stay unseen: deferral schedules, the deadlines of an execution day, and the moment of publication.

#![tactic(auto)]

pub mod annex;
pub mod deadlines;
pub mod examples;
pub mod flat;
pub mod flat_schedule;
pub mod judgement;
pub mod opened;
pub mod publication;
pub mod question;
mod row;
pub mod schedule;
pub mod tier;
pub mod trade;
