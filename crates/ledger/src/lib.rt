//! What a book keeps between its calls: held days, trades by their codes, keys, totals and lines.

#![tactic(auto)]

pub mod days;
pub mod held_day;
pub mod keys;
pub mod listed;
pub mod records;
pub mod security_day;
pub mod sheet_keys;
pub mod slot;
mod stretch;
pub mod totals;
pub mod trade;
