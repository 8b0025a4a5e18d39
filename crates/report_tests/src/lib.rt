//! Tests of securities and reports on examples.

#![tactic(auto)]

#[cfg(test)]
mod grounds;
#[cfg(test)]
mod samples;
#[cfg(test)]
mod states;
#[cfg(test)]
mod warnings;
