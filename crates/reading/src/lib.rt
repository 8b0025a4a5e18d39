//! Words and lines: how numbers, trades and requests are read.

#![tactic(auto)]

pub mod examples;
pub mod flaw;
pub mod line;
pub mod number;
pub mod request;
