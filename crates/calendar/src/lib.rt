//! Trading calendars: what every calendar means, the calendar by rule, the calendar from a list, and the neighbours and hours of a trading day.

#![tactic(auto)]

pub mod calendar;
pub mod day;
pub mod easter;
pub mod examples;
pub mod hours;
pub mod listed;
pub mod listing;
pub mod neighbour;
pub mod rule;
