//! What is printed of a calendar: a day's line, the names of its closings, and how many days it trades.

#![tactic(auto)]

pub mod closing;
pub mod line;
pub mod tally;
