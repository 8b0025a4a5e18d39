//! Tests of the calendars on examples.

#![tactic(auto)]

#[cfg(test)]
mod dates;
#[cfg(test)]
mod lines;
#[cfg(test)]
mod listed;
#[cfg(test)]
mod rule;
