// Lists of rules, checked against trees.
ghost use Rattle.sel_forest.specs.Postorder.{IsTree};
ghost use Rattle.sel_forest.specs.Valid.{IsValidForest};

use crate::accepted::{Subject, subject_of};
use crate::stop::Stop;
use sel_forest::{Forest, Tree, check_cover};
use sel_grammar::Grammar;
use sel_sheet::Row;
use std::alloc::Global;

fn put_rule(rules: &mut Vec<u16>, word: &str) -> Result<(), Stop> {
    match word.parse::<u16>() {
        Ok(rule) => Ok(rules.push(rule)?),
        Err(_) => Err(Stop::Unfit("a rule's number is none")),
    }
}

fn put_rules(rules: &mut Vec<u16>, line: &str) -> Result<(), Stop> {
    for word in line.split(' ') {
        put_rule(rules, word)?;
    }
    Ok(())
}

/// The numbers of a line, with a blank between two.
pub fn rules_of(alloc: Global, line: &str) -> Result<Vec<u16>, Stop> {
    let mut rules = Vec::new(alloc);
    if !line.is_empty() {
        put_rules(&mut rules, line)?;
    }
    Ok(rules)
}

fn checked(alloc: Global, grammar: &Grammar, tree: &Tree, rules: &[u16]) -> Result<String, Stop>
    requires tree { IsTree tree.now }
{
    if rules.len() >= 1_000_000 {
        return Err(Stop::Unfit("too many rules"));
    }
    match check_cover(alloc, grammar, tree, rules)? {
        Some(cost) => Ok(format!(in alloc; "cost {},{}\n", cost.first, cost.second)?),
        None => Ok(String::from_str(alloc, "refused\n")?),
    }
}

// The list's check against the forest's first tree.
#[tactic(auto, using(crate::proofs::Trees::tree_at))]
fn first_checked(
    alloc: Global,
    grammar: &Grammar,
    forest: &Forest,
    rules: &[u16],
) -> Result<String, Stop>
    requires valid { IsValidForest grammar.now forest.now }
{
    match forest.trees.get(0) {
        Some(tree) => checked(alloc, grammar, tree, rules),
        None => Err(Stop::Unfit("no tree")),
    }
}

fn all_checked(alloc: Global, subject: &Subject, line: &str) -> Result<String, Stop>
    requires valid { IsValidForest subject.now.accepted.grammar subject.now.forest }
{
    let rules = rules_of(alloc, line)?;
    first_checked(
        alloc,
        &subject.accepted.grammar,
        &subject.forest,
        rules.as_slice(),
    )
}

/// The cost of the derivation of the row's first tree that has the list of the row's words, or `refused`.
pub fn check(alloc: Global, row: &Row<'_>) -> Result<String, Stop> {
    let subject = subject_of(alloc, row)?;
    all_checked(alloc, &subject, row.words)
}
