// What may be wrong with the normal form of a grammar.
ghost use Rattle.std.specs.Prelude.{◌≡◌, ◌+◌, ◌<◌, ◌↔◌, ◌⊎◌, ℕ, length, IsTrue, IfOk, IfErr};
ghost use Rattle.sel_grammar.specs.Chains.{FreeWalk, HasNoFreeCycle};
ghost use Rattle.sel_grammar.specs.Lawful.{IsLawful};
ghost use Rattle.sel_grammar.specs.Limits.{most_nonterminals};
ghost use Rattle.sel_normal.specs.Forms.{places};
ghost use Rattle.sel_normal.specs.NormalFaults.{HasFew, NormalRefusedFor};
ghost use Rattle.sel_normal.specs.Reach.{IsFreeChain, Leads};

use crate::cut::inner_count;
use crate::reach::{free_target, has_bit};
use sel_grammar::limits::{MOST_NORMAL_NONTERMINALS, TOO_MANY, ZERO_CYCLE};
use sel_grammar::{Grammar, GrammarFault, GrammarRefusal, Rule};

/// A fault at the rule's left name.
fn fault_at(kind: u8, rule: &Rule) -> GrammarRefusal
    ensures { result ≡ GrammarRefusal.Fault (record { kind = kind; line = rule.now.line; column = rule.now.column }) }
{
    GrammarRefusal::Fault(GrammarFault {
        kind,
        line: rule.line,
        column: rule.column,
    })
}

/// How many normal nonterminals there may be.
const MOST: u16 = MOST_NORMAL_NONTERMINALS as u16;

/// How many normal nonterminals the grammar has. A fault where they are too many.
pub fn count_nonterminals(grammar: &Grammar) -> Result<u16, GrammarRefusal>
    requires { IsLawful grammar.now }
    ensures count { IfOk result (λ count. count ≡ length grammar.now.nonterminals + length (places grammar.now.rules)) }
    ensures few { IfOk result (λ _. HasFew grammar.now) }
    ensures fault { IfErr result (λ refusal. NormalRefusedFor grammar.now refusal) }
{
    let mut count = grammar.nonterminals.len() as u16;
    for rule in grammar.rules.as_slice() {
        count += inner_count(&rule.pattern);
        if count > MOST {
            return Err(fault_at(TOO_MANY, rule));
        }
    }
    Ok(count)
}

/// Whether `from` is `to`, or leads there.
fn leads_back(from: u16, to: u16, leads: &[u64]) -> bool
    requires from { from < length leads.now }
    requires to { to < most_nonterminals }
    ensures { IsTrue result ↔ ((from ≡ to) ⊎ Leads leads.now from to) }
{
    from == to || has_bit(leads, from as usize, to as usize)
}

/// Whether the rule is a free chain rule, and free chain rules lead from where it leads back to its left
/// side.
fn stands_on_cycle(rule: &Rule, leads: &[u64]) -> bool
    requires left { rule.now.left < most_nonterminals }
    requires target { (m : ℕ) → IsFreeChain rule.now m → m < length leads.now }
    ensures { IsTrue result ↔ ((m : ℕ) × IsFreeChain rule.now m × ((m ≡ rule.now.left) ⊎ Leads leads.now m rule.now.left)) }
{
    match free_target(rule) {
        Some(to) => leads_back(to, rule.left, leads),
        None => false,
    }
}

/// A fault where free chain rules lead in a cycle. `leads` has a word for each nonterminal n, whose bit m
/// says that they lead from n to m.
pub fn check_cycles(grammar: &Grammar, leads: &[u64]) -> Result<(), GrammarRefusal>
    requires lawful { IsLawful grammar.now }
    requires few { HasFew grammar.now }
    requires leads { (n m : ℕ) → Leads leads.now n m ↔ FreeWalk grammar.now n m }
    requires long { length leads.now ≡ length grammar.now.nonterminals }
    ensures free { IfOk result (λ _. HasNoFreeCycle grammar.now) }
    ensures fault { IfErr result (λ refusal. NormalRefusedFor grammar.now refusal) }
{
    for rule in grammar.rules.as_slice() {
        if stands_on_cycle(rule, leads) {
            return Err(fault_at(ZERO_CYCLE, rule));
        }
    }
    Ok(())
}
