ghost use Rattle.std.specs.Prelude.{◌≡◌, IfOk, option_map};
ghost use Rattle.sel_forest.specs.declared.forest.Cover.{Cover as AnyCover};
ghost use Rattle.sel_grammar.specs.PlainTrees.{PlainTree};
ghost use Rattle.sel_grammar.specs.Chains.{HasNoFreeCycle};
ghost use Rattle.sel_grammar.specs.Lawful.{IsLawful};
ghost use Rattle.sel_forest.specs.Postorder.{IsPostorderOf, IsTree};
ghost use Rattle.sel_plain.specs.NodeCosts.{HasPlaces, AreBestCosts};
ghost use Rattle.sel_check.specs.Laws.{IsBestList};
ghost use Rattle.sel_check.specs.CertificateTexts.{IsPrintable};

use sel_base::{List, NoMemory, Pair};
use sel_forest::{Cover, Tree};
use sel_grammar::Grammar;
use sel_plain::{least, table};
use std::alloc::Global;

/// What is claimed of a tree: for each node in postorder and each nonterminal the least cost of a
/// derivation of the node's tree, or None where there is said to be none, and the rule numbers of a
/// derivation from the start symbol in preorder, or None.
#[derive(Debug, Drop)]
pub struct TreeCertificate {
    pub costs: List<List<Option<Pair>>>,
    pub rules: Option<List<u16>>,
}

/// The rules of the cover, where there is one.
fn rules_of(answer: Option<Cover>) -> Option<List<u16>>
    ensures { result ≡ option_map (λ (cover : AnyCover). cover.rules) answer }
{
    match answer {
        Some(cover) => Some(cover.rules),
        None => None,
    }
}

/// The certificate of a tree that has the costs of the best derivations, and the list of the best one
/// from the start symbol.
pub fn certify(alloc: Global, grammar: &Grammar, tree: &Tree) -> Result<TreeCertificate, NoMemory>
    requires tree { IsTree tree.now }
    requires lawful { IsLawful grammar.now }
    requires free { HasNoFreeCycle grammar.now }
    ensures places { IfOk result (λ c. HasPlaces grammar.now tree.now c.costs) }
    ensures costs { IfOk result (λ c. AreBestCosts grammar.now tree.now c.costs) }
    ensures rules { IfOk result (λ c. (t : PlainTree) → IsPostorderOf tree.now t → IsBestList grammar.now t c.rules) }
    ensures printable { IfOk result IsPrintable }
{
    let costs = table(alloc, grammar, tree)?;
    let answer = least(alloc, grammar, tree)?;
    let rules = rules_of(answer);
    Ok(TreeCertificate { costs, rules })
}
