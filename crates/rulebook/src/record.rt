//! Trades as the notebook holds them.
use deferral::deadlines::Deadlines;
use report::line::Place;
use report::report::{Code, Report};
use report::state::State;

/// A trade that was taken, with all that later calls need of it.
#[derive(Clone, Copy)]
pub struct Record {
    pub code: Code,
    pub report: Report,
    /// Those of the first report, which every amendment keeps.
    pub deadlines: Deadlines,
    /// When the market may see the trade.
    pub moment: u64,
    /// Did an amendment make it?
    pub amended: bool,
    pub state: State,
    /// The line that told of it; zeros before there is one, for a line that recalls it copies this as it is.
    pub place: Place,
}
