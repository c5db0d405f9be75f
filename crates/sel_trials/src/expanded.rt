// Texts of covers.
ghost use Rattle.sel_forest.specs.Postorder.{IsTree};
ghost use Rattle.sel_forest.specs.Valid.{IsValidForest};
ghost use Rattle.sel_expand.specs.Expanding.{IsCovered};

use crate::accepted::{Subject, subject_of, text_of};
use crate::checked::rules_of;
use crate::stop::Stop;
use sel_base::{List, NoMemory};
use sel_expand::{Expander, Expansion, expand};
use sel_forest::{Cover, Forest, Tree, check_cover};
use sel_grammar::Grammar;
use sel_sheet::Row;
use std::alloc::Global;

fn are_same(one: &Expansion, other: &Expansion) -> bool {
    match (one, other) {
        (Expansion::Text(one), Expansion::Text(other)) => one.as_slice() == other.as_slice(),
        (Expansion::TooLong, Expansion::TooLong) => true,
        _ => false,
    }
}

fn put_expansion(text: &mut Vec<u8>, expansion: &Expansion) -> Result<(), NoMemory> {
    match expansion {
        Expansion::Text(bytes) => text.extend_from_slice(bytes.as_slice())?,
        Expansion::TooLong => text.extend_from_slice(b"too long\n")?,
    }
    Ok(())
}

// `expand` gives the same.
fn is_alone(
    alloc: Global,
    grammar: &Grammar,
    tree: &Tree,
    cover: &Cover,
    expansion: &Expansion,
) -> Result<bool, NoMemory>
    requires tree { IsTree tree.now }
    requires covered { IsCovered grammar.now tree.now cover.now.rules }
{
    let alone = expand(alloc, grammar, tree, cover)?;
    Ok(are_same(expansion, &alone))
}

// The text of the cover. `expand` and the expander give the same.
fn put_cover(
    alloc: Global,
    expander: &mut Expander,
    grammar: &Grammar,
    tree: &Tree,
    cover: &Cover,
    text: &mut Vec<u8>,
) -> Result<(), Stop>
    requires tree { IsTree tree.now }
    requires covered { IsCovered grammar.now tree.now cover.now.rules }
{
    let expansion = expander.expand(alloc, grammar, tree, cover)?;
    if is_alone(alloc, grammar, tree, cover, &expansion)? {
        Ok(put_expansion(text, &expansion)?)
    } else {
        Err(Stop::Unfit("an expander that was used gives another text"))
    }
}

// The text of the list's derivation of the tree.
fn put_text(
    alloc: Global,
    expander: &mut Expander,
    grammar: &Grammar,
    tree: &Tree,
    rules: Vec<u16>,
    text: &mut Vec<u8>,
) -> Result<(), Stop>
    requires tree { IsTree tree.now }
{
    if rules.len() >= 1_000_000 {
        return Err(Stop::Unfit("too many rules"));
    }
    let rules = List::from_vec(rules);
    match check_cover(alloc, grammar, tree, rules.as_slice())? {
        Some(cost) => put_cover(alloc, expander, grammar, tree, &Cover { cost, rules }, text),
        None => Err(Stop::Unfit("the list is no derivation's")),
    }
}

// The text of the line's derivation of the tree.
fn put_line(
    alloc: Global,
    expander: &mut Expander,
    grammar: &Grammar,
    tree: &Tree,
    line: &str,
    text: &mut Vec<u8>,
) -> Result<(), Stop>
    requires tree { IsTree tree.now }
{
    let rules = rules_of(alloc, line)?;
    put_text(alloc, expander, grammar, tree, rules, text)
}

fn put_bar(at: usize, text: &mut Vec<u8>) -> Result<(), NoMemory> {
    if at > 0 {
        text.extend_from_slice(b"---\n")?;
    }
    Ok(())
}

// The lists' derivations of the trees, with a line `---` between two.
#[tactic(auto, using(crate::proofs::Trees::tree_at))]
fn put_texts(
    alloc: Global,
    grammar: &Grammar,
    forest: &Forest,
    lines: &str,
    text: &mut Vec<u8>,
) -> Result<(), Stop>
    requires valid { IsValidForest grammar.now forest.now }
{
    let mut expander = Expander::new(alloc);
    for (at, line) in lines.split('\n').enumerate() {
        let Some(tree) = forest.trees.get(at) else {
            return Ok(());
        };
        put_bar(at, text)?;
        put_line(alloc, &mut expander, grammar, tree, line, text)?;
    }
    Ok(())
}

fn texts(alloc: Global, subject: &Subject, lines: &str) -> Result<Vec<u8>, Stop>
    requires valid { IsValidForest subject.now.accepted.grammar subject.now.forest }
{
    let mut text = Vec::new(alloc);
    put_texts(
        alloc,
        &subject.accepted.grammar,
        &subject.forest,
        lines,
        &mut text,
    )?;
    Ok(text)
}

/// The texts of the derivations that have the lists of the row's file `rules`, a line for each tree.
pub fn expand_all(alloc: Global, row: &Row<'_>) -> Result<Vec<u8>, Stop> {
    let rules = text_of(row, "rules")?;
    let subject = subject_of(alloc, row)?;
    match std::str::from_utf8(rules) {
        Ok(lines) => texts(alloc, &subject, lines),
        Err(_) => Err(Stop::Unfit("the rules are no text")),
    }
}
