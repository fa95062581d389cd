// A file gone through with a rule: a row for each line, and of which lines nothing was made.
ghost use Rattle.std.specs.Prelude.{◌≡◌, ◌-◌, ◌^◌, ◌<◌, ◌++◌, IfOk, IfErr, OnOk, OnErr};
ghost use Rattle.rules.specs.Rules.{nothing, made};
ghost use Rattle.console.specs.Rows.{lines, escaped_byte, escaped, made_of, why_not, OneMore, TableOf};
ghost use Rattle.rules.specs.Held.{the_rule};

use rules::Rule;
use std::alloc::{AllocError, Global};

// Why nothing was made of a line.
#[derive(Clone, Copy, PartialEq, Eq, Debug)]
pub enum Why {
    // It has more than 64 bytes.
    TooLong,
    // The rule makes nothing of it.
    NothingMade,
}

// A line of which nothing was made, by its number from 1.
#[derive(Clone, Copy, PartialEq, Eq, Debug)]
pub struct Miss {
    pub line: usize,
    pub why: Why,
}

// What came of a file: the rows, how many lines there were, and of which nothing was made.
#[derive(Drop)]
pub struct Table {
    pub rows: Vec<u8>,
    pub lines: usize,
    pub missed: Vec<Miss>,
}

// A byte as a row has it.
fn add_byte(out: &mut Vec<u8>, byte: u8) -> Result<(), AllocError>
    ensures { OnOk result (out.new.items ≡ out.old.items ++ escaped_byte byte) }
{
    match byte {
        b'\t' => out.extend_from_slice(b"\\t"),
        b'\\' => out.extend_from_slice(b"\\\\"),
        _ => Ok(out.push(byte)?),
    }
}

// A text as a row has it.
#[tactic(auto, using(crate::proofs::Appends::appends))]
fn add_text(out: &mut Vec<u8>, text: &[u8]) -> Result<(), AllocError>
    ensures { OnOk result (out.new.items ≡ out.old.items ++ escaped text.now) }
{
    for byte in text {
        add_byte(out, *byte)?;
    }
    Ok(())
}

// What the rule makes of a line, written into `room`, or why nothing.
#[tactic(auto, using(crate::proofs::RowsOfLines::made_has_room))]
fn make<'a>(rule: &Rule, line: &[u8], room: &'a mut [u8; 512]) -> Result<&'a [u8], Why>
    ensures made { IfOk result (λ t. made_of (the_rule rule.now) line.now ≡ made t.now) }
    ensures none { OnErr result (made_of (the_rule rule.now) line.now ≡ nothing) }
    ensures why { IfErr result (λ why. why ≡ why_not line.now) }
{
    if line.len() > 64 {
        return Err(Why::TooLong);
    }
    // Eight parts of up to 64 bytes each have room.
    let n = rule.makes(line, room).unwrap().ok_or(Why::NothingMade)?;
    Ok(&room[..n])
}

impl Table {
    // The row of one line more; `room` is for what is made of it.
    fn add_line(&mut self, rule: &Rule, line: &[u8], room: &mut [u8; 512]) -> Result<(), AllocError>
        requires { self.old.lines < 2 ^ 64 - 1 }
        ensures { OnOk result (OneMore (the_rule rule.now) line.now self.old self.new) }
    {
        self.lines += 1;
        add_text(&mut self.rows, line)?;
        match make(rule, line, room) {
            Ok(text) => {
                self.rows.push(b'\t')?;
                add_text(&mut self.rows, text)?;
            }
            Err(why) => self.missed.push(Miss {
                line: self.lines,
                why,
            })?,
        }
        self.rows.push(b'\n')?;
        Ok(())
    }
}

// Goes through a file with a rule, line by line.
pub fn carry_out(heap: Global, rule: &Rule, file: &[u8]) -> Result<Table, AllocError>
    ensures { IfOk result (λ t. TableOf (the_rule rule.now) (lines file.now) t) }
{
    let mut table = Table {
        rows: Vec::new(heap),
        lines: 0,
        missed: Vec::new(heap),
    };
    let mut room = [0u8; 512];
    for line in file.split_inclusive(|byte| *byte == b'\n') {
        let line = line.strip_suffix(b"\n").unwrap_or(line);
        table.add_line(rule, line, &mut room)?;
    }
    Ok(table)
}
