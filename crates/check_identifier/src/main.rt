//! Reads lines of a word and a text, and writes each with what is found of it.
#![tactic(auto)]

use identifier::{Verdict, judge};
use std::io;
use std::io::{BufRead, BufReader, Write};

/// Ends a line of the input; all other bytes belong to the line.
const LINE_END: u8 = b'\n';

fn main(rt: HostRuntime) -> io::Result<()> {
    let mut out = rt.stdout();
    for line in BufReader::new(rt.alloc(), rt.stdin())?.split(rt.alloc(), LINE_END) {
        let line = line?;
        let verdict = Verdict(judge(&line));
        out.write_all(&line)?;
        writeln!(out, ": {verdict}")?;
    }
    Ok(())
}
