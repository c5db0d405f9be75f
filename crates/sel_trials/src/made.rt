// Forests that are made, and the shipped grammars.
ghost use Rattle.std.specs.Prelude.{◌≤◌};
ghost use Rattle.sel_grammar.specs.Lawful.{IsLawful};
ghost use Rattle.sel_forest.specs.Valid.{IsValidForest};

use crate::accepted::{accept, forest_in, grammar_of, text_of};
use crate::stop::Stop;
use sel_base::NoMemory;
use sel_forest::{Forest, Tree, print_forest};
use sel_gen::{TreeMaker, make_forest};
use sel_grammar::Grammar;
use sel_grammar_print::print_grammar;
use sel_normal::Normal;
use sel_sheet::Row;
use sel_targets::target;
use std::alloc::Global;

// From which number a forest is made, and how many trees of how many rules at most.
#[derive(Clone, Copy)]
struct Numbers {
    seed: u64,
    trees: u32,
    size: u32,
}

// The words `SEED TREES SIZE`.
fn numbers_in(words: &str) -> Option<Numbers> {
    let (seed, rest) = words.split_once(' ')?;
    let (trees, size) = rest.split_once(' ')?;
    let seed = seed.parse::<u64>().ok()?;
    let trees = trees.parse::<u32>().ok()?;
    let size = size.parse::<u32>().ok()?;
    Some(Numbers { seed, trees, size })
}

// Fields and all, as text.
fn shown(alloc: Global, tree: &Tree) -> Result<String, NoMemory> {
    Ok(format!(in alloc; "{tree:?}")?)
}

fn is_same(alloc: Global, tree: &Tree, next: &Tree) -> Result<bool, NoMemory> {
    let next = shown(alloc, next)?;
    let tree = shown(alloc, tree)?;
    Ok(tree.as_str() == next.as_str())
}

// The maker's next tree is this one.
fn is_next(alloc: Global, maker: &mut TreeMaker<'_>, tree: &Tree) -> Result<bool, NoMemory> {
    match maker.next(alloc)? {
        Some(next) => is_same(alloc, tree, &next),
        None => Ok(false),
    }
}

fn gives_none(alloc: Global, maker: &mut TreeMaker<'_>) -> Result<bool, NoMemory> {
    let next = maker.next(alloc)?;
    Ok(next.is_none())
}

// The maker gives no tree, twice.
fn is_at_end(alloc: Global, maker: &mut TreeMaker<'_>) -> Result<bool, NoMemory> {
    Ok(gives_none(alloc, maker)? && gives_none(alloc, maker)?)
}

// The maker gives the trees of the forest, and no other behind them.
fn gives(alloc: Global, maker: &mut TreeMaker<'_>, forest: &Forest) -> Result<bool, NoMemory> {
    for tree in forest.trees.as_slice() {
        if !is_next(alloc, maker, tree)? {
            return Ok(false);
        }
    }
    is_at_end(alloc, maker)
}

// Tree by tree the same forest is made.
fn is_made(
    alloc: Global,
    grammar: &Grammar,
    numbers: Numbers,
    forest: &Forest,
) -> Result<bool, NoMemory>
    requires lawful { IsLawful grammar.now }
    requires trees { numbers.trees ≤ 1000000 }
    requires from { 1 ≤ numbers.size }
    requires to { numbers.size ≤ 1000 }
{
    let Numbers { seed, trees, size } = numbers;
    let mut maker = TreeMaker::new(alloc, grammar, seed, trees, size)?;
    gives(alloc, &mut maker, forest)
}

// The text is read as a forest that is printed so.
fn is_read_back(alloc: Global, grammar: &Grammar, text: &[u8]) -> Result<bool, Stop>
    requires lawful { IsLawful grammar.now }
{
    let again = forest_in(alloc, grammar, text)?;
    let printed = print_forest(alloc, grammar, &again)?;
    Ok(printed.as_slice() == text)
}

fn printed(alloc: Global, grammar: &Grammar, forest: &Forest) -> Result<Vec<u8>, Stop>
    requires lawful { IsLawful grammar.now }
    requires valid { IsValidForest grammar.now forest.now }
{
    let printed = print_forest(alloc, grammar, forest)?;
    if is_read_back(alloc, grammar, printed.as_slice())? {
        Ok(printed.into_vec())
    } else {
        Err(Stop::Unfit("it isn't read back"))
    }
}

// The forest, which comes tree by tree too.
fn made(alloc: Global, grammar: &Grammar, numbers: Numbers) -> Result<Vec<u8>, Stop>
    requires lawful { IsLawful grammar.now }
{
    let Numbers { seed, trees, size } = numbers;
    if trees > 1_000_000 || size < 1 || size > 1_000 {
        return Err(Stop::Unfit("too many trees, or no size"));
    }
    let forest = make_forest(alloc, grammar, seed, trees, size)?;
    if is_made(alloc, grammar, numbers, &forest)? {
        printed(alloc, grammar, &forest)
    } else {
        Err(Stop::Unfit("the maker gives other trees"))
    }
}

/// The forest that is made of the row's grammar by its words `SEED TREES SIZE`.
pub fn make(alloc: Global, row: &Row<'_>) -> Result<Vec<u8>, Stop> {
    let accepted = accept(alloc, row)?;
    match numbers_in(row.words) {
        Some(numbers) => made(alloc, &accepted.grammar, numbers),
        None => Err(Stop::Unfit("no seed, count and size")),
    }
}

fn count_made(alloc: Global, grammar: &Grammar, numbers: Numbers) -> Result<String, Stop>
    requires lawful { IsLawful grammar.now }
{
    let printed = made(alloc, grammar, numbers)?;
    let forest = forest_in(alloc, grammar, printed.as_slice())?;
    Ok(format!(in alloc; "{} trees, the same again\n", forest.trees.len())?)
}

fn back_of(alloc: Global, text: &str, seed: u64) -> Result<String, Stop> {
    let grammar = grammar_of(alloc, text.as_bytes())?;
    let numbers = Numbers {
        seed,
        trees: 500,
        size: 64,
    };
    count_made(alloc, &grammar, numbers)
}

/// How many trees are made of a shipped grammar by the words `NAME SEED`, of 500 of 64 rules at most.
pub fn back(alloc: Global, row: &Row<'_>) -> Result<String, Stop> {
    let Some((name, seed)) = row.words.split_once(' ') else {
        return Err(Stop::Unfit("no name and seed"));
    };
    let (Some(text), Ok(seed)) = (target(name), seed.parse::<u64>()) else {
        return Err(Stop::Unfit("no name and seed"));
    };
    back_of(alloc, text, seed)
}

// The text is read as a grammar that is printed so.
fn is_grammar_again(alloc: Global, text: &[u8]) -> Result<bool, Stop> {
    let again = grammar_of(alloc, text)?;
    let printed = print_grammar(alloc, &again)?;
    Ok(printed.as_slice() == text)
}

// The grammar is printed, read and printed again.
fn is_grammar_back(alloc: Global, grammar: &Grammar) -> Result<bool, Stop>
    requires lawful { IsLawful grammar.now }
{
    let printed = print_grammar(alloc, grammar)?;
    is_grammar_again(alloc, printed.as_slice())
}

fn counts(alloc: Global, grammar: &Grammar, normal: &Normal) -> Result<String, NoMemory> {
    let operators = grammar.operators.len();
    let rules = grammar.rules.len();
    let nonterminals = normal.nonterminals();
    Ok(format!(in alloc; "{operators} operators, {rules} rules, {nonterminals} nonterminals\n")?)
}

fn told_of(alloc: Global, grammar: &Grammar) -> Result<String, Stop>
    requires lawful { IsLawful grammar.now }
{
    if !is_grammar_back(alloc, grammar)? {
        return Err(Stop::Unfit("it isn't read back"));
    }
    let normal = Normal::of(alloc, grammar)?;
    Ok(counts(alloc, grammar, &normal)?)
}

// What the text's grammar has.
fn told(alloc: Global, text: &str) -> Result<String, Stop> {
    let grammar = grammar_of(alloc, text.as_bytes())?;
    told_of(alloc, &grammar)
}

/// What the shipped grammar has that the row's words, or its file `name`, name.
pub fn shipped(alloc: Global, row: &Row<'_>) -> Result<String, Stop> {
    let name = if row.words.is_empty() {
        std::str::from_utf8(text_of(row, "name")?).unwrap_or("")
    } else {
        row.words
    };
    match target(name) {
        Some(text) => told(alloc, text),
        None => Ok(String::from_str(alloc, "none\n")?),
    }
}
