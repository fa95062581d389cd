// What standard error says of a file that was gone through.
use console::{Miss, Table, Why};
use std::io;

// One line: of which line nothing was made, and why, if it was too long.
fn report_miss(rt: &impl Eprint, miss: &Miss) -> io::Result<()> {
    let line = miss.line;
    match miss.why {
        Why::TooLong => eprintln!(rt;
            "nothing was made of line {line}, which has more than 64 bytes"
        ),
        Why::NothingMade => eprintln!(rt; "nothing was made of line {line}"),
    }
}

pub fn report(rt: &impl Eprint, table: &Table) -> io::Result<()> {
    let lines = table.lines;
    let missed = table.missed.len();
    eprintln!(rt; "{lines} lines, of {missed} nothing was made")?;
    for miss in &table.missed {
        report_miss(rt, miss)?;
    }
    Ok(())
}
