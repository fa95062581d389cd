// A rule: up to eight parts, each of which is one.
ghost use Rattle.std.specs.Prelude.{◌≡◌, true, Some, None, IfOk, IfErr, OnOk};
ghost use Rattle.rules.specs.Faults.{checked, rule_fault};
ghost use Rattle.rules.specs.Rules.{a_rule};
ghost use Rattle.rules.specs.Values.{the_parts};

use crate::fault::Fault;
use crate::part::Part;

#[derive(Drop)]
pub struct Rule {
    parts: Vec<Part>,
    ghost ok: { a_rule (the_parts parts.items) ≡ true },
}

// Whether these parts are a rule, and if not, what is wrong with them first.
#[tactic(auto, using(crate::proofs::FaultsTell::check_told))]
fn check_parts(parts: &[Part]) -> Result<(), Fault>
    ensures value { result ≡ checked (rule_fault (the_parts parts.now)) }
    ensures right { OnOk result (a_rule (the_parts parts.now) ≡ true) }
{
    if parts.len() > 8 {
        return Err(Fault::PartCount(parts.len()));
    }
    for part in parts {
        part.check()?;
    }
    Ok(())
}

impl Rule {
    // A rule of these parts, or what is wrong with them.
    pub fn new(parts: Vec<Part>) -> Result<Rule, Fault>
        ensures parts { IfOk result (λ rule. rule.parts.items ≡ parts.items) }
        ensures right { OnOk result (rule_fault (the_parts parts.items) ≡ None) }
        ensures fault { IfErr result (λ fault. rule_fault (the_parts parts.items) ≡ Some fault) }
    {
        check_parts(&parts)?;
        Ok(Rule { parts })
    }

    pub fn parts(&self) -> &[Part]
        ensures parts { result.now ≡ self.now.parts.items }
        ensures rule { a_rule (the_parts result.now) ≡ true }
    {
        self.parts.as_slice()
    }
}
