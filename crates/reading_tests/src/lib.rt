//! Tests of how numbers, lines and requests are read, on examples.

#![tactic(auto)]

#[cfg(test)]
mod lines;
#[cfg(test)]
mod messages;
#[cfg(test)]
mod numbers;
#[cfg(test)]
mod requests;
