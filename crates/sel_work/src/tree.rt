// The answer of one tree.
ghost use Rattle.std.specs.Prelude.{◌≡◌, ◌≤◌, IfOk, OnOk};
ghost use Rattle.sel_grammar.specs.PlainTrees.{PlainTree};
ghost use Rattle.sel_forest.specs.Covers.{IsAnswer, IsBestCover};
ghost use Rattle.sel_forest.specs.Postorder.{IsPostorderOf};
ghost use Rattle.sel_forest.specs.Valid.{IsValidTree};
ghost use Rattle.sel_items.specs.Automata.{Keeps};
ghost use Rattle.sel_items.specs.Laws.{IsAcceptedForm};
ghost use Rattle.sel_label.specs.Labelling.{AddsOfTree, AreAllReady};
ghost use Rattle.sel_work.specs.Answers.{IsTreeAnswer};
ghost use Rattle.sel_work.specs.Kept.{AreTabledKept, IsPlainCount};

use crate::answer::{Answer, Answered, Goal};
use sel_base::{NoMemory, Steps};
use sel_expand::{Expander, Expansion};
use sel_forest::{Cover, Tree};
use sel_grammar::Grammar;
use sel_items::Automaton;
use sel_label::label_tree;
use sel_label::laws::numbered_are_not_plain;
use sel_normal::Normal;
use sel_reduce::reduce;
use std::alloc::Global;
use std::sync::ledger::Ledger;

/// The best cover of a tree, and how many of the nodes that were labelled for it have plain labels.
fn best_cover<A: Automaton, L: Ledger>(
    automaton: &mut A,
    alloc: Global,
    grammar: &Grammar,
    normal: &Normal,
    tree: &Tree,
    steps: &mut Steps<L>,
) -> Result<(Option<Cover>, usize), NoMemory>
    requires normal { (A.told automaton.old).normal ≡ normal.now }
    requires form { IsAcceptedForm grammar.now normal.now }
    requires tree { IsValidTree grammar.now tree.now }
    ensures answer { IfOk result (λ found. (t : PlainTree) → IsPostorderOf tree.now t → IsAnswer grammar.now t found.0) }
    ensures plain_nodes { IfOk result (λ found. IsPlainCount grammar.now tree.now.nodes (A.told automaton.new) found.1) }
    ensures tabled { OnOk result (AreTabledKept grammar.now tree.now.nodes (A.told automaton.new)) }
    ensures fixed { A.fixed automaton.new ≡ A.fixed automaton.old }
    ensures adds { AddsOfTree grammar.now tree.now.nodes (A.told automaton.old) (A.told automaton.new) }
    ensures keeps { Keeps (A.told automaton.old) (A.told automaton.new) }
    ensures hit { AreAllReady grammar.now tree.now.nodes (A.told automaton.old) → (steps.new ≡ steps.old) × IfOk result (λ found. found.1 ≡ 0) }
    ensures steps { steps.old ≤ steps.new }
{
    numbered_are_not_plain();
    let labels = label_tree(automaton, alloc, normal, tree, steps)?;
    let plain_nodes = labels.plain();
    let cover = reduce(automaton, alloc, grammar, normal, tree, &labels)?;
    Ok((cover, plain_nodes))
}

/// The text that the best cover expands to.
fn text_answer(
    expander: &mut Expander,
    alloc: Global,
    grammar: &Grammar,
    tree: &Tree,
    cover: &Cover,
) -> Result<Answer, NoMemory>
    requires tree { IsValidTree grammar.now tree.now }
    requires best { (t : PlainTree) → IsPostorderOf tree.now t → IsBestCover grammar.now t cover.now }
    ensures { IfOk result (λ answer. (t : PlainTree) → IsPostorderOf tree.now t → IsTreeAnswer grammar.now Goal.Text t answer) }
{
    let cost = cover.cost;
    match expander.expand(alloc, grammar, tree, cover)? {
        Expansion::Text(text) => Ok(Answer::Text { cost, text }),
        Expansion::TooLong => Ok(Answer::TooLong { cost }),
    }
}

/// What is answered of the best cover, where there is one.
fn cover_answer(
    expander: &mut Expander,
    alloc: Global,
    grammar: &Grammar,
    tree: &Tree,
    cover: Option<Cover>,
    goal: Goal,
) -> Result<Answer, NoMemory>
    requires tree { IsValidTree grammar.now tree.now }
    requires best { (t : PlainTree) → IsPostorderOf tree.now t → IsAnswer grammar.now t cover }
    ensures { IfOk result (λ answer. (t : PlainTree) → IsPostorderOf tree.now t → IsTreeAnswer grammar.now goal t answer) }
{
    let Some(cover) = cover else {
        return Ok(Answer::NoCover);
    };
    match goal {
        Goal::Cover => Ok(Answer::Cover(cover)),
        Goal::Text => text_answer(expander, alloc, grammar, tree, &cover),
    }
}

/// Labels the tree by the automaton, and answers what is asked of it: the best cover, or the text that
/// this expands to. The normal form is the grammar's and the automaton's. Labels of the tree before
/// lose their meaning unless they are numbered. After want of memory the automaton stands as the calls
/// that were made leave it, and may be asked again.
pub fn answer_tree<A: Automaton, L: Ledger>(
    automaton: &mut A,
    expander: &mut Expander,
    alloc: Global,
    grammar: &Grammar,
    normal: &Normal,
    tree: &Tree,
    goal: Goal,
    steps: &mut Steps<L>,
) -> Result<Answered, NoMemory>
    requires normal { (A.told automaton.old).normal ≡ normal.now }
    requires form { IsAcceptedForm grammar.now normal.now }
    requires tree { IsValidTree grammar.now tree.now }
    ensures answer { IfOk result (λ answered. (t : PlainTree) → IsPostorderOf tree.now t → IsTreeAnswer grammar.now goal t answered.answer) }
    ensures plain_nodes { IfOk result (λ answered. IsPlainCount grammar.now tree.now.nodes (A.told automaton.new) answered.plain_nodes) }
    ensures tabled { OnOk result (AreTabledKept grammar.now tree.now.nodes (A.told automaton.new)) }
    ensures fixed { A.fixed automaton.new ≡ A.fixed automaton.old }
    ensures adds { AddsOfTree grammar.now tree.now.nodes (A.told automaton.old) (A.told automaton.new) }
    ensures keeps { Keeps (A.told automaton.old) (A.told automaton.new) }
    ensures hit { AreAllReady grammar.now tree.now.nodes (A.told automaton.old) → (steps.new ≡ steps.old) × IfOk result (λ answered. answered.plain_nodes ≡ 0) }
    ensures steps { steps.old ≤ steps.new }
{
    let (cover, plain_nodes) = best_cover(automaton, alloc, grammar, normal, tree, steps)?;
    let answer = cover_answer(expander, alloc, grammar, tree, cover, goal)?;
    Ok(Answered {
        answer,
        plain_nodes,
    })
}
