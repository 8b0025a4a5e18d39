//! Prints a year's trading calendar, or a line for each of its days.

#![tactic(auto)]

mod fault;
mod page;
mod request;
mod year;

use almanac::line::day_line;
use calendar::rule::RuleCalendar;
use fault::Fault;
use page::print_page;
use request::{Request, read_request};
use std::alloc::Global;
use std::io::{BufWriter, Write};
use std::ops::Range;
use std::process::ExitCode;
use std::{env, io};

const USAGE: &str =
    "usage: trading_year YEAR | trading_year YEAR --days | trading_year FIRST LAST --days, with years from 2000 to 2199";

fn print_days<W: Write>(heap: Global, out: &mut W, days: Range<u32>) -> io::Result<()> {
    for day in days {
        if let Some(line) = day_line(heap, &RuleCalendar, day)? {
            writeln!(out, "{line}")?;
        }
    }
    Ok(())
}

fn answer(rt: &HostRuntime, asked: Request) -> io::Result<()> {
    let mut out = BufWriter::new(rt.alloc(), rt.stdout())?;
    match asked {
        Request::Page(year) => print_page(&mut out, year)?,
        Request::Days(first, last) => print_days(rt.alloc(), &mut out, first.days_until(last))?,
    }
    out.flush()
}

fn run(rt: &HostRuntime) -> Result<(), Fault> {
    let words: Vec<String> = env::args(rt)?.skip(1).collect(rt.alloc())?;
    match read_request(words.as_slice()) {
        Ok(asked) => {
            answer(rt, asked)?;
            Ok(())
        }
        Err(fault) => {
            eprintln!(rt; "trading_year: {fault}")?;
            eprintln!(rt; "{USAGE}")?;
            Err(fault)
        }
    }
}

fn main(rt: HostRuntime) -> ExitCode {
    match run(&rt) {
        Ok(()) => ExitCode::SUCCESS,
        Err(_) => ExitCode::FAILURE,
    }
}
