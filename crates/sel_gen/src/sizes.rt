// The least sizes of derivations from each nonterminal, by a fixed point over the rules.
ghost use Rattle.std.specs.Prelude.{◌≡◌, ◌<◌, ◌≤◌, ◌↔◌, length, true, false, IfOk, IsTrue};
ghost use Rattle.sel_grammar.specs.Lawful.{IsLawful, names_of};
ghost use Rattle.sel_grammar.specs.Limits.{most_names};
ghost use Rattle.sel_gen.specs.Sizes.{is_usable, size_at, AreLeastSizes, rule_size};
ghost use Rattle.sel_gen.specs.Made.{most_size};
ghost use Rattle.sel_gen.specs.Lowering.{small_sum, small_kids_size, AreUpTo, AreBuilt, offered, IsAtMost, Withstands, IsLowered, AllWithstood, total_distance};

use sel_base::{NoMemory, Range};
use sel_grammar::{Grammar, Pattern, Rule};
use std::alloc::Global;

/// Whether some number is in the range, where there is one.
pub fn is_usable(range: &Option<Range>) -> bool
    ensures { result ≡ is_usable range.now }
{
    match range {
        None => true,
        Some(range) => range.lo <= range.hi,
    }
}

pub fn size_at(sizes: &[Option<u32>], nonterminal: usize) -> Option<u32>
    ensures { result ≡ size_at sizes.now nonterminal }
{
    match sizes.get(nonterminal) {
        Some(size) => *size,
        None => None,
    }
}

/// The sum, where there are both and it fits.
fn small_sum(first: Option<u32>, second: Option<u32>) -> Option<u32>
    ensures { result ≡ small_sum first second }
{
    match (first, second) {
        (Some(first), Some(second)) => {
            let sum = first as u64 + second as u64;
            if sum <= u32::MAX as u64 {
                Some(sum as u32)
            } else {
                None
            }
        }
        _ => None,
    }
}

/// The sum of the sizes of the pattern's nonterminals, where all have one and it fits.
#[tactic(auto, using(crate::proofs::Patterns::size_cases))]
fn small_kids_size(pattern: &Pattern, sizes: &[Option<u32>]) -> Option<u32>
    ensures { result ≡ small_kids_size sizes.now pattern.now }
{
    match pattern {
        Pattern::Leaf(nonterminal) => size_at(sizes, *nonterminal as usize),
        Pattern::Nullary(_) => Some(0),
        Pattern::Unary(_, below) => small_kids_size(below.get(), sizes),
        Pattern::Binary(_, left, right) => {
            let first = small_kids_size(left.get(), sizes);
            let second = small_kids_size(right.get(), sizes);
            small_sum(first, second)
        }
    }
}

/// The size of the rule: 1 more than the sizes of its pattern's nonterminals, which are small enough for their sum.
pub fn rule_size(rule: &Rule, sizes: &[Option<u32>]) -> Option<u32>
    requires sizes { AreUpTo most_size sizes.now }
    requires names { names_of rule.now.pattern ≤ most_names }
    ensures { result ≡ rule_size sizes.now rule.now }
{
    match small_kids_size(&rule.pattern, sizes) {
        Some(size) => Some(size + 1),
        None => None,
    }
}

/// What the rule offers its left side: its size, where it is used and that is within the limit.
fn offered(rule: &Rule, limit: u32, sizes: &[Option<u32>]) -> Option<u32>
    requires sizes { AreUpTo most_size sizes.now }
    requires names { names_of rule.now.pattern ≤ most_names }
    ensures { result ≡ offered limit sizes.now rule.now }
{
    if !is_usable(&rule.range) {
        return None;
    }
    match rule_size(rule, sizes) {
        Some(size) => { if size <= limit { Some(size) } else { None } }
        None => None,
    }
}

fn is_at_most(size: Option<u32>, other: u32) -> bool
    ensures { IsTrue result ↔ IsAtMost size other }
{
    match size {
        Some(size) => size <= other,
        None => false,
    }
}

/// Lowers the size of the rule's left side to what the rule offers. Whether it did.
fn lower(rule: &Rule, limit: u32, sizes: &mut [Option<u32>]) -> bool
    requires left { rule.now.left < length sizes.old }
    requires sizes { AreUpTo most_size sizes.old }
    requires names { names_of rule.now.pattern ≤ most_names }
    ensures stays { result ≡ false → sizes.new ≡ sizes.old }
    ensures withstands { result ≡ false → Withstands limit sizes.old rule.now }
    ensures lowered { result ≡ true → IsLowered limit rule.now sizes.old sizes.new }
{
    let left = rule.left as usize;
    match offered(rule, limit, sizes) {
        Some(size) => {
            if is_at_most(size_at(sizes, left), size) {
                false
            } else {
                sizes[left] = Some(size);
                true
            }
        }
        None => false,
    }
}

/// Lowers sizes by each rule once. Whether one got less.
fn lower_all(grammar: &Grammar, limit: u32, sizes: &mut [Option<u32>]) -> bool
    requires lawful { IsLawful grammar.now }
    requires limit { limit ≤ most_size }
    requires long { length sizes.old ≡ length grammar.now.nonterminals }
    requires within { AreUpTo limit sizes.old }
    requires built { AreBuilt grammar.now sizes.old }
    ensures withstood { result ≡ false → AllWithstood grammar.now limit sizes.new }
    ensures falls { result ≡ true → total_distance limit sizes.new < total_distance limit sizes.old }
    ensures within { AreUpTo limit sizes.new }
    ensures built { AreBuilt grammar.now sizes.new }
{
    let mut changed = false;
    for (k, rule) in grammar.rules.as_slice().iter().enumerate() {
        if lower(rule, limit, sizes) {
            changed = true;
        }
    }
    changed
}

/// Lowers sizes until no rule lowers one.
fn settle(grammar: &Grammar, limit: u32, sizes: &mut [Option<u32>])
    requires lawful { IsLawful grammar.now }
    requires limit { limit ≤ most_size }
    requires long { length sizes.old ≡ length grammar.now.nonterminals }
    requires within { AreUpTo limit sizes.old }
    requires built { AreBuilt grammar.now sizes.old }
    ensures { AreLeastSizes grammar.now limit sizes.new }
{
    'passes: loop {
        if !lower_all(grammar, limit, sizes) {
            return;
        }
    }
}

/// For each nonterminal the least number of rules of a derivation from it, where that is within the limit.
pub fn least_sizes(
    alloc: Global,
    grammar: &Grammar,
    limit: u32,
) -> Result<Vec<Option<u32>>, NoMemory>
    requires lawful { IsLawful grammar.now }
    requires limit { limit ≤ most_size }
    ensures { IfOk result (λ sizes. AreLeastSizes grammar.now limit sizes.items) }
{
    let mut sizes = vec![in alloc; None; grammar.nonterminals.len()]?;
    settle(grammar, limit, sizes.as_mut_slice());
    Ok(sizes)
}
