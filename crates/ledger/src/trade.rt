//! A trade as it waits, is published or is withdrawn, and the lines that tell of it.
//!
//! `Record` is a type of the rulebook, so these are functions and no methods of it; a trait of one type is no plainer.
ghost use Rattle.std.specs.Prelude.{◌≡◌};
ghost use Rattle.rulebook.specs.Lines.{line_of, due_line, recall_line};
ghost use Rattle.rulebook.specs.Notebook.{is_due, waits as state_waits, is_published as state_published};
ghost use Rattle.rulebook.specs.Taken.{met, withdrawn};

use report::line::{Line, Place, Told};
use report::state::{Event, State};
use rulebook::record::Record;

/// No line.
const NO_PLACE: Place = Place { day: 0, number: 0 };

/// Does the trade wait?
pub fn waits(trade: &Record) -> bool
    ensures { result ≡ state_waits trade.now.state }
{
    trade.state == State::Waiting
}

/// Does the market see the trade?
pub fn is_published(trade: &Record) -> bool
    ensures { result ≡ state_published trade.now.state }
{
    trade.state == State::Published
}

/// Does the trade wait, and has the clock reached its moment?
pub fn falls_due(trade: &Record, clock: u64) -> bool
    ensures { result ≡ is_due clock trade.now }
{
    waits(trade) && trade.moment <= clock
}

/// The trade falls due, and the line at `place` tells of it.
pub fn publish(trade: &mut Record, place: Place)
    ensures { trade.new ≡ met Event.Due place trade.old }
{
    trade.state.meet(Event::Due);
    trade.place = place;
}

/// The trade is withdrawn.
pub fn withdraw(trade: &mut Record)
    ensures { trade.new ≡ withdrawn trade.old }
{
    trade.state.meet(Event::Withdrawn);
}

/// A line that repeats the trade's own fields.
fn line_of(trade: &Record, told: Told, place: Place, moment: u64, recalled: Place) -> Line
    ensures { result ≡ line_of told place moment recalled trade.now }
{
    let report = trade.report;
    Line {
        place,
        moment,
        told,
        isin: report.isin,
        segment: report.segment,
        price: report.price,
        quantity: report.quantity,
        execution: report.execution,
        actx: report.actx,
        benc: report.benc,
        sdiv: report.sdiv,
        waiver: report.waiver,
        recalled,
    }
}

/// The line that tells of a trade which falls due.
pub fn due_line(trade: &Record, place: Place) -> Line
    ensures { result ≡ due_line place trade.now }
{
    let told = if trade.amended {
        Told::Amnd
    } else {
        Told::Entr
    };
    line_of(trade, told, place, trade.moment, NO_PLACE)
}

/// The line that recalls the trade.
pub fn recall_line(trade: &Record, place: Place, clock: u64) -> Line
    ensures { result ≡ recall_line place clock trade.now }
{
    line_of(trade, Told::Canc, place, clock, trade.place)
}
