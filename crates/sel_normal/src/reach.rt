// Where free chain rules lead.
ghost use Rattle.std.specs.Prelude.{◌≡◌, ◌<◌, ◌≤◌, ◌↔◌, ◌⊎◌, ℕ, Some, length, IsTrue, IfOk};
ghost use Rattle.sel_grammar.specs.Chains.{IsFreeStep, FreeWalk};
ghost use Rattle.sel_grammar.specs.Lawful.{IsLawful};
ghost use Rattle.sel_grammar.specs.Limits.{most_nonterminals};
ghost use Rattle.sel_normal.specs.Reach.{IsFreeChain, Leads};

use sel_base::NoMemory;
use sel_grammar::{Grammar, Pattern, Rule};
use std::alloc::Global;

/// Where the rule leads, if it is a chain rule that costs nothing.
pub fn free_target(rule: &Rule) -> Option<u16>
    ensures { (m : ℕ) → (result ≡ Some m) ↔ IsFreeChain rule.now m }
{
    match &rule.pattern {
        Pattern::Leaf(nonterminal) => {
            if rule.cost.first == 0 && rule.cost.second == 0 {
                Some(*nonterminal)
            } else {
                None
            }
        }
        _ => None,
    }
}

/// Whether the word `from` has the bit `to`.
pub fn has_bit(rows: &[u64], from: usize, to: usize) -> bool
    requires from { from < length rows.now }
    requires to { to < most_nonterminals }
    ensures { IsTrue result ↔ Leads rows.now from to }
{
    rows[from] >> to & 1 == 1
}

/// Sets the bit `to` of the word `from`.
fn set_bit(rows: &mut [u64], from: usize, to: usize)
    requires from { from < length rows.old }
    requires to { to < most_nonterminals }
    ensures { (n m : ℕ) → Leads rows.new n m ↔ (Leads rows.old n m ⊎ ((n ≡ from) × (m ≡ to))) }
{
    rows[from] |= 1 << to;
}

/// Sets the bits of the word `through` in the word `from` too.
fn add_row(rows: &mut [u64], from: usize, through: usize)
    requires from { from < length rows.old }
    requires through { through < length rows.old }
    ensures { (n m : ℕ) → Leads rows.new n m ↔ (Leads rows.old n m ⊎ ((n ≡ from) × Leads rows.old through m)) }
{
    rows[from] |= rows[through];
}

/// Lets each word that has the bit `through` lead wherever the word `through` leads.
fn lead_through(rows: &mut [u64], through: usize)
    requires through { through < length rows.old }
    requires few { length rows.old ≤ most_nonterminals }
    ensures { (n m : ℕ) → Leads rows.new n m ↔ (Leads rows.old n m ⊎ (Leads rows.old n through × Leads rows.old through m)) }
{
    for from in 0..rows.len() {
        if has_bit(rows, from, through) {
            add_row(rows, from, through);
        }
    }
}

/// Sets the bit of the rule, if it is a free chain rule.
fn set_step(rule: &Rule, rows: &mut [u64])
    requires left { rule.now.left < length rows.old }
    requires target { (m : ℕ) → rule.now.pattern ≡ Pattern.Leaf m → m < most_nonterminals }
    ensures { (n m : ℕ) → Leads rows.new n m ↔ (Leads rows.old n m ⊎ ((rule.now.left ≡ n) × IsFreeChain rule.now m)) }
{
    if let Some(to) = free_target(rule) {
        set_bit(rows, rule.left as usize, to as usize);
    }
}

/// Sets the bits of all free chain rules.
fn set_steps(grammar: &Grammar, rows: &mut [u64])
    requires lawful { IsLawful grammar.now }
    requires long { length rows.old ≡ length grammar.now.nonterminals }
    ensures { (n m : ℕ) → Leads rows.new n m ↔ (Leads rows.old n m ⊎ ((r : ℕ) × IsFreeStep grammar.now r n m)) }
{
    for rule in grammar.rules.as_slice() {
        set_step(rule, rows);
    }
}

/// Sets the bit m of the word n exactly where one or more free chain rules lead from n to m (Warshall's
/// transitive closure).
fn set_walks(grammar: &Grammar, rows: &mut [u64])
    requires lawful { IsLawful grammar.now }
    requires long { length rows.old ≡ length grammar.now.nonterminals }
    requires empty { (n m : ℕ) → Leads rows.old n m → ⊥ }
    ensures { (n m : ℕ) → Leads rows.new n m ↔ FreeWalk grammar.now n m }
{
    set_steps(grammar, rows);
    for through in 0..rows.len() {
        lead_through(rows, through);
    }
}

/// A word for each nonterminal n, whose bit m says that one or more free chain rules lead from n to m.
pub fn free_leads(alloc: Global, grammar: &Grammar) -> Result<Vec<u64>, NoMemory>
    requires lawful { IsLawful grammar.now }
    ensures leads { IfOk result (λ rows. (n m : ℕ) → Leads rows.items n m ↔ FreeWalk grammar.now n m) }
    ensures long { IfOk result (λ rows. length rows.items ≡ length grammar.now.nonterminals) }
{
    let mut rows = vec![in alloc; 0; grammar.nonterminals.len()]?;
    set_walks(grammar, rows.as_mut_slice());
    Ok(rows)
}
