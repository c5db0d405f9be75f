ghost use Rattle.std.specs.Prelude.{◌≡◌};
ghost use Rattle.sel_plain.specs.Kinds.{rule_kind};

use sel_grammar::Pattern;

/// A rule with an operator in its pattern, or a chain rule, whose pattern is a nonterminal alone.
#[derive(Clone, Copy, Debug, PartialEq, Eq)]
pub enum RuleKind {
    Operator,
    Chain,
}

#[tactic(auto, using(crate::proofs::Patterns::kind_cases))]
pub fn rule_kind(pattern: &Pattern) -> RuleKind
    ensures { result ≡ rule_kind pattern.now }
{
    match pattern {
        Pattern::Leaf(_) => RuleKind::Chain,
        _ => RuleKind::Operator,
    }
}
