// Which of two rules comes first.
ghost use Rattle.std.proofs.Common.{rules};
ghost use Rattle.std.specs.Cmp.{partial_order_from_own_ties};
ghost use Rattle.std.specs.Cmp.Lexicographic.{slice_cmp};
ghost use Rattle.std.specs.Cmp.Rules.{comparing};
ghost use Rattle.std.specs.Ordering.{nat_cmp, on, as_partial_cmp, eq_by_cmp};
ghost use Rattle.std.specs.Prelude.{◌≡◌, length};
ghost use Rattle.rules.specs.Order.{rule_spelled, rule_before, rule_cmp};
ghost use Rattle.rules.specs.Held.{the_rule};

use crate::rule::Rule;
use std::cmp::Ordering;

// Room for the spelling of any rule: the number of its parts, and eight parts of up to 66 bytes.
const LONGEST: usize = 529;

// The spelling of a rule, written where there is room for any.
#[tactic(auto, using(crate::proofs::SpellsParts::spelling_fits))]
fn spell<'a>(rule: &Rule, out: &'a mut [u8]) -> &'a [u8]
    requires { length out.old ≡ 529 }
    ensures { result.now ≡ rule_spelled (the_rule rule.now) }
{
    let n = rule.spelled(out).unwrap();
    &out[..n]
}

// The order of the spellings of two rules, as of words in a dictionary.
fn cmp_spelled(first: &Rule, second: &Rule) -> Ordering
    ensures { result ≡ slice_cmp nat_cmp (rule_spelled (the_rule first.now)) (rule_spelled (the_rule second.now)) }
{
    let mut a = [0u8; LONGEST];
    let mut b = [0u8; LONGEST];
    spell(first, &mut a).cmp(spell(second, &mut b))
}

// The cheaper comes first; of the same cost the one whose spelling does.
impl Ord for Rule {
    ghost cmp = { on the_rule rule_cmp };

    ghost total = { Prim.search (comparing, rules) };

    ghost matches_partial_cmp = { Prim.search (comparing, rules) };

    ghost matches_eq = { Prim.search (comparing, rules) };

    fn cmp(&self, other: &Rule) -> Ordering {
        self.cost()
            .cmp(&other.cost())
            .then_with(|| cmp_spelled(self, other))
    }
}

impl PartialOrd for Rule {
    ghost partial_cmp = { as_partial_cmp (on the_rule rule_cmp) };

    ghost laws = { partial_order_from_own_ties (Prim.search (comparing, rules)) (Prim.search (comparing, rules)) };

    fn partial_cmp(&self, other: &Rule) -> Option<Ordering> {
        Some(self.cmp(other))
    }
}

// No two rules are spelled alike, so those are equal of which neither comes first.
impl PartialEq for Rule {
    ghost eq = { eq_by_cmp (on the_rule rule_cmp) };

    ghost laws = { Prim.search (comparing, rules) };

    fn eq(&self, other: &Rule) -> bool {
        self.cmp(other) == Ordering::Equal
    }
}

impl Eq for Rule {
    ghost laws = { Prim.search (comparing, rules) };
}

impl Rule {
    // Whether this rule comes before the other: it is cheaper, or as cheap and spelled earlier. `<`, with its promise in the words of the definitions.
    #[tactic(auto, using(crate::proofs::RuleOrder::before_is))]
    pub fn comes_before(&self, other: &Rule) -> bool
        ensures { result ≡ rule_before (the_rule self.now) (the_rule other.now) }
    {
        self < other
    }
}
