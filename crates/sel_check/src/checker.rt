//! A text of certificates, checked against a forest.

ghost use Rattle.std.specs.Prelude.{◌≡◌, ◌++◌, ◌∷◌, [], ◌<◌, ◌+◌, ◌^◌, List, IfErr, IfOk, IfSome, length};
ghost use Rattle.sel_grammar.specs.Lawful.{IsLawful};
ghost use Rattle.sel_forest.specs.declared.forest.Tree.{Tree as AnyTree};
ghost use Rattle.sel_forest.specs.Postorder.{IsTree};
ghost use Rattle.sel_forest.specs.Valid.{IsValidForest};
ghost use Rattle.sel_check.specs.declared.certificate.TreeCertificate.{TreeCertificate as AnyCertificate};
ghost use Rattle.sel_check.specs.Checks.{ProvesCosts, AreLeastCosts, IsCheckRefusal, IsFor, IsInside, lines_of_trees, placed};
ghost use Rattle.sel_check.specs.LineReading.{IsVerdict};

use crate::certificate::TreeCertificate;
use crate::kinds::{BOUND, COST, COVER, TEXT};
use crate::lines::Lines;
use crate::refusal::{CheckFault, CheckRefusal, TreeFault, TreeRefusal};
use crate::tree_check::check_tree;
use sel_base::{List, NoMemory, Pair};
use sel_forest::{Forest, Tree};
use sel_grammar::Grammar;
use std::alloc::Global;

/// What is known of the trees so far: the cost of each is proved, or there is a first fault.
#[derive(Debug, Drop)]
enum Verdict {
    Proved(List<Option<Pair>>),
    Faulty(CheckFault),
}

/// Where the fault of a tree stands behind so many lines.
fn placed(lines: u32, tree: &Tree, fault: TreeFault) -> CheckFault
    requires room { lines + 2 + length tree.now.nodes < 4294967295 }
    requires inside { IsInside tree.now fault }
    ensures { result ≡ placed lines tree.now fault }
{
    let rows = lines + 2;
    let rules = rows + tree.nodes.len() as u32;
    match fault {
        TreeFault::Bound(node) => CheckFault {
            kind: BOUND,
            line: rows + node as u32,
        },
        TreeFault::Cover => CheckFault {
            kind: COVER,
            line: rules,
        },
        TreeFault::Cost => CheckFault {
            kind: COST,
            line: rules,
        },
    }
}

/// The verdict with one tree more, whose certificate stands behind so many lines.
fn judged(
    alloc: Global,
    grammar: &Grammar,
    tree: &Tree,
    certificate: &TreeCertificate,
    lines: u32,
    verdict: Verdict,
) -> Result<Verdict, NoMemory>
    requires tree { IsTree tree.now }
    requires lawful { IsLawful grammar.now }
    requires form { IsFor grammar.now tree.now certificate.now }
    requires few { IfSome certificate.now.rules (λ numbers. length numbers < 2 ^ 32) }
    requires room { lines + 2 + length tree.now.nodes < 4294967295 }
    ensures { IfOk result (λ judged. (trees : List AnyTree) (cs : List AnyCertificate) → IsVerdict grammar.now trees cs verdict → lines ≡ lines_of_trees trees
        → IsVerdict grammar.now (trees ++ tree.now ∷ []) (cs ++ certificate.now ∷ []) judged) }
{
    let mut costs = match verdict {
        Verdict::Proved(costs) => costs,
        Verdict::Faulty(fault) => return Ok(Verdict::Faulty(fault)),
    };
    match check_tree(alloc, grammar, tree, certificate) {
        Ok(cost) => {
            costs.push(cost)?;
            Ok(Verdict::Proved(costs))
        }
        Err(refusal) => match refusal {
            TreeRefusal::Fault(fault) => Ok(Verdict::Faulty(placed(lines, tree, fault))),
            TreeRefusal::NoMemory => Err(NoMemory),
        },
    }
}

/// The cost that the text's certificate of each tree proves to be the least of the tree's derivations
/// from the start symbol, or None where it proves that there is none.
///
/// The text has for each tree, numbered from 1, what `print_certificate` gives of a certificate that has
/// a row for each node and an entry for each nonterminal. It is judged whole before anything else
/// (`kinds::TEXT`); then the certificates are tried in the order of the trees, as `check_tree` tries
/// each. The certificates are read one at a time, and none is kept.
pub fn check(
    alloc: Global,
    grammar: &Grammar,
    forest: &Forest,
    bytes: &[u8],
) -> Result<List<Option<Pair>>, CheckRefusal>
    requires lawful { IsLawful grammar.now }
    requires forest { IsValidForest grammar.now forest.now }
    requires short { length bytes.now < 4294967295 }
    ensures ok { IfOk result (ProvesCosts grammar.now forest.now bytes.now) }
    ensures least { IfOk result (AreLeastCosts grammar.now forest.now.trees) }
    ensures fault { IfErr result (IsCheckRefusal grammar.now forest.now bytes.now) }
{
    let mut lines = Lines {
        rest: bytes,
        taken: 0,
    };
    let mut verdict = Verdict::Proved(List::new(alloc));
    let mut number = 1;
    'trees: for tree in forest.trees.as_slice() {
        let before = lines.taken;
        let certificate = match lines.certificate(alloc, grammar, tree, number) {
            Ok(certificate) => certificate,
            Err(refusal) => return Err(refusal),
        };
        verdict = judged(alloc, grammar, tree, &certificate, before, verdict)?;
        number += 1;
    }
    if !lines.rest.is_empty() {
        return Err(CheckRefusal::Fault(CheckFault {
            kind: TEXT,
            line: lines.taken + 1,
        }));
    }
    match verdict {
        Verdict::Proved(costs) => Ok(costs),
        Verdict::Faulty(fault) => Err(CheckRefusal::Fault(fault)),
    }
}
