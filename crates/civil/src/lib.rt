//! Civil dates: days counted from 1 January 1970, and the dates and weekdays that they are.

#![tactic(auto)]

pub mod date;
pub mod month;
pub mod text;
pub mod weekday;
pub mod year;
