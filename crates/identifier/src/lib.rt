//! Identifiers of securities and of the parties to a trade, and the checks on them.
#![tactic(auto)]

mod class;
mod counterparty;
mod examples;
mod flaw;
mod isin;
mod lei;
mod line;
mod luhn;
mod member;
mod verdict;

pub use counterparty::Counterparty;
pub use examples::examples_stand;
pub use flaw::Flaw;
pub use isin::Isin;
pub use line::judge;
pub use member::Member;
pub use verdict::Verdict;

#[cfg(test)]
mod tests;
