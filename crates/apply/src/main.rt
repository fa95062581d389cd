// Carries out a rule on each line of a file.
#![tactic(auto)]

mod refusal;
mod report;

use console::{carry_out, read_rule};
use refusal::Refusal;
use report::report;
use std::io::Write;
use std::process::ExitCode;
use std::{env, fs};

const HELP: &str = "apply RULE FILE

Carries out the rule on each line of the file, and writes a row for each: the line,
a tab, and what the rule makes of it; or the line alone where it makes nothing. A tab
inside a text is written \\t, a backslash \\\\. Of a line of more than 64 bytes nothing
is made. Standard error says how many lines there were, and of which nothing was made.

A rule is its parts, joined by '; '. A part is bytes in double quotes, or what is cut
from the line between two places:

  apply 'from the last place before which blanks end, to the end' names.txt
  apply '\"p. \"; from the last place behind which digits begin, to the end' names.txt
";

// Carries the rule out, and says on standard error what came of it.
fn apply(rt: &HostRuntime, rule: &str, file: &str) -> Result<(), Refusal> {
    let heap = rt.alloc();
    let rule = read_rule(heap, rule.as_bytes())?;
    let bytes = fs::read(rt, file).try_map_err(|error| {
        let name = String::from_str(heap, file)?;
        Ok(Refusal::File(name, error))
    })?;
    let table = carry_out(heap, &rule, bytes.as_slice())?;
    rt.stdout().write_all(table.rows.as_slice())?;
    report(rt, &table)?;
    Ok(())
}

// Does what the arguments ask for.
fn run(rt: &HostRuntime) -> Result<(), Refusal> {
    let args: Vec<String> = env::args(rt)
        .map_err(Refusal::NotText)?
        .collect(rt.alloc())?;
    match args.as_slice() {
        [_, rule, file] => apply(rt, rule.as_str(), file.as_str()),
        [_, only] if only.as_str() == "--help" => Ok(rt.print(HELP)?),
        _ => Err(Refusal::Arguments),
    }
}

fn main(rt: HostRuntime) -> ExitCode {
    match run(&rt) {
        Ok(()) => ExitCode::SUCCESS,
        Err(why) => {
            let _ = eprintln!(rt; "apply: {why}");
            ExitCode::FAILURE
        }
    }
}
