ghost use Rattle.std.specs.Prelude.{◌≡◌, true, false, ◌<◌, ◌^◌, IfOk, IfErr, IfSome, length};
ghost use Rattle.sel_grammar.specs.Lawful.{IsLawful};
ghost use Rattle.sel_grammar.specs.PlainTrees.{PlainTree};
ghost use Rattle.sel_forest.specs.Postorder.{IsPostorderOf, IsTree};
ghost use Rattle.sel_check.specs.CertificateTexts.{HasSmallClaims};
ghost use Rattle.sel_check.specs.Laws.{IsLeastCost};
ghost use Rattle.sel_check.specs.TreeChecks.{ProvesCost, IsTreeRefusal, IsShownRefusal};
ghost use Rattle.sel_check.specs.Certificates.{IsShown};

use crate::bounds::{claim, first_broken};
use crate::certificate::TreeCertificate;
use crate::refusal::{TreeFault, TreeRefusal};
use sel_base::{List, Pair};
use sel_forest::{Goal, Tree, check_cover};
use sel_grammar::Grammar;
use std::alloc::Global;

fn are_same(shown: Option<Pair>, claim: Option<Pair>) -> bool
    ensures same { result ≡ true → shown ≡ claim }
    ensures differ { result ≡ false → shown ≡ claim → ⊥ }
{
    shown == claim
}

/// What the rules show: their derivation's cost, or None where there are no rules.
fn shown_cost(
    alloc: Global,
    grammar: &Grammar,
    tree: &Tree,
    rules: &Option<List<u16>>,
) -> Result<Option<Pair>, TreeRefusal>
    requires tree { IsTree tree.now }
    requires short { IfSome rules.now (λ rules. length rules < 2 ^ 32) }
    ensures ok { IfOk result (λ cost. (t : PlainTree) → IsPostorderOf tree.now t → IsShown grammar.now t cost rules.now) }
    ensures fault { IfErr result (λ refusal. (t : PlainTree) → IsPostorderOf tree.now t → IsShownRefusal grammar.now t rules.now refusal) }
{
    match rules {
        None => Ok(None),
        Some(rules) => match check_cover(alloc, grammar, tree, rules.as_slice())? {
            Some(cost) => Ok(Some(cost)),
            None => Err(TreeRefusal::Fault(TreeFault::Cover)),
        },
    }
}

/// The cost that the certificate proves to be the least of the tree's derivations from the start
/// symbol, or None where it proves that there is none.
///
/// A certificate is refused for its first fault: the bounds are tried node by node in postorder, then
/// the rules, then whether the rules and the claim of the root and the start symbol agree.
pub fn check_tree(
    alloc: Global,
    grammar: &Grammar,
    tree: &Tree,
    certificate: &TreeCertificate,
) -> Result<Option<Pair>, TreeRefusal>
    requires tree { IsTree tree.now }
    requires lawful { IsLawful grammar.now }
    requires small { HasSmallClaims certificate.now.costs }
    requires short { IfSome certificate.now.rules (λ rules. length rules < 2 ^ 32) }
    ensures ok { IfOk result (λ cost. ProvesCost grammar.now tree.now certificate.now cost) }
    ensures least { IfOk result (λ cost. (t : PlainTree) → IsPostorderOf tree.now t → IsLeastCost grammar.now grammar.now.start t cost) }
    ensures fault { IfErr result (λ refusal. IsTreeRefusal grammar.now tree.now certificate.now refusal) }
{
    let nodes = tree.nodes.as_slice();
    let costs = certificate.costs.as_slice();
    if let Some(node) = first_broken(grammar, nodes, costs) {
        return Err(TreeRefusal::Fault(TreeFault::Bound(node)));
    }
    let goal = Goal {
        at: nodes.len() - 1,
        nonterminal: grammar.start,
    };
    let shown = match shown_cost(alloc, grammar, tree, &certificate.rules) {
        Ok(shown) => shown,
        Err(refusal) => return Err(refusal),
    };
    let claim = claim(costs, goal);
    if are_same(shown, claim) {
        Ok(claim)
    } else {
        Err(TreeRefusal::Fault(TreeFault::Cost))
    }
}
