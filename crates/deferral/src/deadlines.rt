//! The deadlines of an execution day.
use calendar::hours::Hours;

/// The close of an execution day, and the hours of the next trading day.
#[derive(Clone, Copy, PartialEq, Eq, Debug)]
pub struct Deadlines {
    pub close: u64,
    pub next: Hours,
}
