//! The subject of the engine: securities, reports, codes, tape lines, figures, and a report judged against its security.

#![tactic(auto)]

pub mod figures;
pub mod judgement;
pub mod line;
pub mod listing;
pub mod publication;
pub mod report;
pub mod security;
pub mod state;
pub mod warnings;
