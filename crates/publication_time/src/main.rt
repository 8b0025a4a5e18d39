//! Reads trades, one to a line, and writes for each when the market may see it.

#![tactic(auto)]

mod fault;

use calendar::rule::RuleCalendar;
use deferral::annex::AnnexTwo;
use deferral::judgement::judge_trade;
use fault::Fault;
use reading::line::{Asked, read_line};
use std::io;
use std::io::{BufRead, BufReader, BufWriter, Write};
use std::str::from_utf8;

const LINE_END: u8 = b'\n';

/// Reads a line of text, without its end.
fn read_text(line: &[u8]) -> Result<Asked, Fault> {
    let text = from_utf8(line).map_err(|_| Fault::NotText)?;
    Ok(read_line(text.as_bytes())?)
}

/// Writes the answer to one line: tier and moment, the refusal's number, or what is wrong with the line.
fn answer<W: Write>(out: &mut W, number: u64, line: &[u8]) -> io::Result<()> {
    match read_text(line) {
        Ok(asked) => match judge_trade(&RuleCalendar, &AnnexTwo, asked.clock, &asked.trade) {
            Ok(publication) => {
                let tier = publication.tier.number();
                let moment = publication.moment;
                writeln!(out, "{tier} {moment}")
            }
            Err(refusal) => writeln!(out, "refused {refusal}"),
        },
        Err(fault) => writeln!(out, "line {number}: {fault}"),
    }
}

fn main(rt: HostRuntime) -> io::Result<()> {
    let mut out = BufWriter::new(rt.alloc(), rt.stdout())?;
    let lines = BufReader::new(rt.alloc(), rt.stdin())?.split(rt.alloc(), LINE_END);
    for (before, line) in lines.enumerate() {
        answer(&mut out, (before as u64).saturating_add(1), &line?)?;
    }
    out.flush()
}
