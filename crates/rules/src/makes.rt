// What a rule makes of a text, into lent bytes.
ghost use Rattle.std.specs.Prelude.{◌≡◌, length};
ghost use Rattle.rules.specs.Answers.{counted, made_told, made_left, FitsIn};
ghost use Rattle.rules.specs.Rules.{makes};
ghost use Rattle.rules.specs.Values.{the_parts};
ghost use Rattle.rules.specs.Held.{the_rule};

use crate::part::Part;
use crate::room::{NoRoom, Writer};
use crate::rule::Rule;

// How many bytes the parts make of a text, or the largest `usize` where they are more; `None` where a part makes nothing.
fn measure(parts: &[Part], text: &[u8]) -> Option<usize>
    ensures { result ≡ counted (makes (the_parts parts.now) text.now) }
{
    let mut total = 0usize;
    for part in parts {
        total = total.saturating_add(part.makes(text)?.len());
    }
    Some(total)
}

// Writes what the parts make, one after the other.
fn write_parts(parts: &[Part], text: &[u8], out: &mut [u8])
    requires { FitsIn (makes (the_parts parts.now) text.now) (length out.old) }
    ensures { out.new ≡ made_left (makes (the_parts parts.now) text.now) out.old }
{
    let mut writer = Writer::new(out);
    for part in parts {
        if let Some(piece) = part.makes(text) {
            writer.put(piece);
        }
    }
}

impl Rule {
    // Writes what the rule makes of the text, and says how many bytes that is; `None` where it makes nothing.
    // Where nothing is made, or there is no room, `out` is as it was.
    pub fn makes(&self, text: &[u8], out: &mut [u8]) -> Result<Option<usize>, NoRoom>
        ensures value { result ≡ made_told (makes (the_rule self.now) text.now) (length out.old) }
        ensures after { out.new ≡ made_left (makes (the_rule self.now) text.now) out.old }
    {
        let Some(total) = measure(self.parts(), text) else {
            return Ok(None);
        };
        if total > out.len() {
            return Err(NoRoom);
        }
        write_parts(self.parts(), text, out);
        Ok(Some(total))
    }
}
