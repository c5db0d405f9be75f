// What the labels of trees say, and what the automaton tells behind each tree.
ghost use Rattle.std.specs.Prelude.{◌≡◌, ◌<◌, ◌≤◌};
ghost use Rattle.sel_auto.specs.Tables.{told_of};
ghost use Rattle.sel_forest.specs.Valid.{IsValidForest, IsValidTree};
ghost use Rattle.sel_items.specs.declared.items.Items.{Items};
ghost use Rattle.sel_items.specs.Automata.{KeepsMeanings};
ghost use Rattle.sel_items.specs.Laws.{IsAcceptedForm};
ghost use Rattle.sel_reduce.specs.Goals.{IsItemsAt};
ghost use Rattle.sel_reduce.specs.Labelled.{IsLabelling};

use crate::accepted::{Accepted, subject_of};
use crate::stop::Stop;
use sel_auto::PrivateAutomaton;
use sel_base::{NoMemory, Steps};
use sel_forest::{Cover, Forest, Tree};
use sel_items::{Automaton, Item, Label};
use sel_label::{Labels, label_tree};
use sel_reduce::reduce;
use sel_sheet::Row;
use std::alloc::Global;
use std::fmt::Write;
use std::marker::Brand;
use std::sync::ledger::{Blank, Ledger};

/// What is told of a labelled tree.
#[derive(Clone, Copy, PartialEq, Eq)]
pub enum Told {
    /// The items of the root.
    Items,
    /// How many plain labels, states, keys and evaluations there are, and the marks.
    States,
    /// Both, and the cover.
    All,
}

fn plain_count(labels: &Labels) -> usize {
    let mut count: usize = 0;
    for label in labels.of.as_slice() {
        let is_plain = matches!(label, Label::Plain(_));
        count = count.saturating_add(is_plain as usize);
    }
    count
}

// the node's item for the nonterminal
fn item_at<A: Automaton>(
    automaton: &mut A,
    labels: &Labels,
    at: usize,
    nonterminal: u16,
) -> Option<Item>
    requires items { (i : Items) × IsItemsAt (A.told automaton.old).means labels.now.of at i }
    requires nonterminal { nonterminal < (A.told automaton.old).normal.nonterminals }
    ensures normal { (A.told automaton.new).normal ≡ (A.told automaton.old).normal }
    ensures keeps { KeepsMeanings (A.told automaton.old).means (A.told automaton.new).means }
{
    match labels.of.get(at) {
        Some(label) => automaton.item(*label, nonterminal),
        None => None,
    }
}

// the root's item for the nonterminal
fn root_item<A: Automaton>(
    automaton: &mut A,
    accepted: &Accepted,
    tree: &Tree,
    labels: &Labels,
    nonterminal: u16,
) -> Option<Item>
    requires normal { (A.told automaton.old).normal ≡ accepted.now.normal }
    requires form { IsAcceptedForm accepted.now.grammar accepted.now.normal }
    requires tree { IsValidTree accepted.now.grammar tree.now }
    requires labelled { IsLabelling accepted.now.grammar (A.told automaton.old).means tree.now labels.now.of }
    ensures normal { (A.told automaton.new).normal ≡ (A.told automaton.old).normal }
    ensures labelled { IsLabelling accepted.now.grammar (A.told automaton.new).means tree.now labels.now.of }
{
    if nonterminal >= accepted.normal.nonterminals() {
        return None;
    }
    let nodes = tree.nodes.as_slice();
    let root = nodes.len() - 1;
    item_at(automaton, labels, root, nonterminal)
}

fn put_item(text: &mut String, item: Option<Item>) -> Result<(), NoMemory> {
    match item {
        Some(item) => write!(
            text,
            "{},{}/{}",
            item.cost.first, item.cost.second, item.rule
        )?,
        None => write!(text, "-")?,
    }
    Ok(())
}

// The items of the root for each nonterminal, with a blank between two, where they are wanted.
fn put_items<A: Automaton>(
    automaton: &mut A,
    accepted: &Accepted,
    tree: &Tree,
    labels: &Labels,
    told: Told,
    text: &mut String,
) -> Result<(), NoMemory>
    requires normal { (A.told automaton.old).normal ≡ accepted.now.normal }
    requires form { IsAcceptedForm accepted.now.grammar accepted.now.normal }
    requires tree { IsValidTree accepted.now.grammar tree.now }
    requires labelled { IsLabelling accepted.now.grammar (A.told automaton.old).means tree.now labels.now.of }
    ensures normal { (A.told automaton.new).normal ≡ (A.told automaton.old).normal }
    ensures labelled { IsLabelling accepted.now.grammar (A.told automaton.new).means tree.now labels.now.of }
{
    if told == Told::States {
        return Ok(());
    }
    let count = accepted.normal.nonterminals();
    'items: for nonterminal in 0..count {
        if nonterminal > 0 {
            text.push_str(" ")?;
        }
        let item = root_item(automaton, accepted, tree, labels, nonterminal);
        put_item(text, item)?;
    }
    text.push_str("\n")?;
    Ok(())
}

fn yes_or_no(is_so: bool) -> &'static str {
    if is_so { "yes" } else { "no" }
}

fn put_states(
    automaton: &PrivateAutomaton,
    labels: &Labels,
    text: &mut String,
) -> Result<(), NoMemory> {
    let plain = plain_count(labels);
    let states = automaton.states();
    let keys = automaton.keys();
    write!(text, "plain {plain} states {states} keys {keys}")?;
    let evaluated = automaton.evaluated();
    let used_up = yes_or_no(automaton.used_up());
    let row_full = yes_or_no(automaton.row_full());
    write!(
        text,
        " evaluated {evaluated} used_up {used_up} row_full {row_full}\n"
    )?;
    Ok(())
}

// A rule, and how often it comes one behind the other where that is more than once.
fn put_rules(text: &mut String, rule: u16, count: usize) -> Result<(), NoMemory> {
    match count {
        0 => {}
        1 => write!(text, " {rule}")?,
        _ => write!(text, " {count}*{rule}")?,
    }
    Ok(())
}

// A run of the same rule.
#[derive(Clone, Copy)]
struct Run {
    rule: u16,
    count: usize,
}

// Puts the run that ends before the rule, if one does, and gives the one that the rule goes on with or begins.
fn put_behind(text: &mut String, run: Run, rule: u16) -> Result<Run, NoMemory> {
    if run.rule == rule {
        let count = run.count.saturating_add(1);
        return Ok(Run { rule, count });
    }
    put_rules(text, run.rule, run.count)?;
    Ok(Run { rule, count: 1 })
}

fn put_list(text: &mut String, rules: &[u16]) -> Result<(), NoMemory> {
    let mut run = Run { rule: 0, count: 0 };
    for rule in rules {
        run = put_behind(text, run, *rule)?;
    }
    put_rules(text, run.rule, run.count)
}

fn put_found(text: &mut String, cover: &Cover) -> Result<(), NoMemory> {
    write!(text, "cost {},{} by", cover.cost.first, cover.cost.second)?;
    put_list(text, cover.rules.as_slice())?;
    text.push_str("\n")?;
    Ok(())
}

fn put_cover(text: &mut String, cover: &Option<Cover>) -> Result<(), NoMemory> {
    match cover {
        Some(cover) => put_found(text, cover),
        None => Ok(text.push_str("no cover\n")?),
    }
}

// What is wanted of the labels alone.
fn put_labels(
    automaton: &mut PrivateAutomaton,
    accepted: &Accepted,
    tree: &Tree,
    labels: &Labels,
    told: Told,
    text: &mut String,
) -> Result<(), NoMemory>
    requires normal { automaton.old.normal ≡ accepted.now.normal }
    requires form { IsAcceptedForm accepted.now.grammar accepted.now.normal }
    requires tree { IsValidTree accepted.now.grammar tree.now }
    requires labelled { IsLabelling accepted.now.grammar (told_of automaton.old).means tree.now labels.now.of }
    ensures normal { automaton.new.normal ≡ automaton.old.normal }
    ensures labelled { IsLabelling accepted.now.grammar (told_of automaton.new).means tree.now labels.now.of }
{
    if told != Told::Items {
        put_states(automaton, labels, text)?;
    }
    put_items(automaton, accepted, tree, labels, told, text)
}

// Labels and reduces the tree, and tells what is wanted.
fn tell<L: Ledger>(
    automaton: &mut PrivateAutomaton,
    alloc: Global,
    accepted: &Accepted,
    tree: &Tree,
    told: Told,
    text: &mut String,
    steps: &mut Steps<L>,
) -> Result<(), Stop>
    requires normal { automaton.old.normal ≡ accepted.now.normal }
    requires form { IsAcceptedForm accepted.now.grammar accepted.now.normal }
    requires tree { IsValidTree accepted.now.grammar tree.now }
    ensures normal { automaton.new.normal ≡ automaton.old.normal }
{
    let Accepted { grammar, normal } = accepted;
    let labels = label_tree(automaton, alloc, normal, tree, steps)?;
    put_labels(automaton, accepted, tree, &labels, told, text)?;
    if told != Told::All {
        return Ok(());
    }
    let cover = reduce(automaton, alloc, grammar, normal, tree, &labels)?;
    Ok(put_cover(text, &cover)?)
}

fn tell_each<L: Ledger>(
    automaton: &mut PrivateAutomaton,
    alloc: Global,
    accepted: &Accepted,
    forest: &Forest,
    told: Told,
    text: &mut String,
    steps: &mut Steps<L>,
) -> Result<(), Stop>
    requires normal { automaton.old.normal ≡ accepted.now.normal }
    requires form { IsAcceptedForm accepted.now.grammar accepted.now.normal }
    requires valid { IsValidForest accepted.now.grammar forest.now }
{
    'trees: for tree in forest.trees.as_slice() {
        tell(automaton, alloc, accepted, tree, told, text, steps)?;
    }
    Ok(())
}

// Tells of each tree, all by one automaton with room for so many states and keys, whose steps are counted over
// the blank.
fn tell_counted<L: Ledger>(
    blank: Blank,
    alloc: Global,
    accepted: &Accepted,
    forest: &Forest,
    room: (u32, u32),
    told: Told,
) -> Result<String, Stop>
    requires name { blank.name ≡ L.name }
    requires parts { blank.parts ≡ L.parts }
    requires one { 0 < blank.parts }
    requires states { room.0 ≤ 32768 }
    requires rows { room.1 ≤ 1048576 }
    requires form { IsAcceptedForm accepted.now.grammar accepted.now.normal }
    requires valid { IsValidForest accepted.now.grammar forest.now }
{
    let (states, rows) = room;
    let mut steps = Steps::<L>::new(blank);
    let mut automaton = PrivateAutomaton::new(alloc, &accepted.normal, states, rows)?;
    let mut text = String::new(alloc);
    tell_each(
        &mut automaton,
        alloc,
        accepted,
        forest,
        told,
        &mut text,
        &mut steps,
    )?;
    Ok(text)
}

// The words `STATES ROWS`, or ample room where there are none.
fn room_of(words: &str) -> Option<(u32, u32)> {
    if words.is_empty() {
        return Some((32_768, 1_048_576));
    }
    let (states, rows) = words.split_once(' ')?;
    let states = states.parse::<u32>().ok()?;
    let rows = rows.parse::<u32>().ok()?;
    Some((states, rows))
}

// What is told of each tree of the forest.
fn told_in(
    alloc: Global,
    accepted: &Accepted,
    forest: &Forest,
    room: (u32, u32),
    told: Told,
) -> Result<String, Stop>
    requires form { IsAcceptedForm accepted.now.grammar accepted.now.normal }
    requires valid { IsValidForest accepted.now.grammar forest.now }
{
    if room.0 > 32_768 || room.1 > 1_048_576 {
        return Err(Stop::Unfit("too much room"));
    }
    tell_counted::<Brand>(Blank::new(1), alloc, accepted, forest, room, told)
}

/// What is told of each tree of the row's forest, by one automaton with the room that the row's words say.
pub fn labels(alloc: Global, row: &Row<'_>, told: Told) -> Result<String, Stop> {
    let subject = subject_of(alloc, row)?;
    match room_of(row.words) {
        Some(room) => told_in(alloc, &subject.accepted, &subject.forest, room, told),
        None => Err(Stop::Unfit("the words are no room")),
    }
}
