// What is left to do for a tree, and how a rule's pattern is put down as such tasks.
ghost use Rattle.std.specs.Prelude.{◌≡◌, ◌∷◌, [], ◌++◌, List, ℕ, length, IfOk, unwrap_or};
ghost use Rattle.sel_grammar.specs.Fits.{leaves};
ghost use Rattle.sel_gen.specs.Sizes.{size_at};
ghost use Rattle.sel_gen.specs.Made.{leaf_sizes};
ghost use Rattle.sel_gen.specs.Growing.{HasPushed};

use crate::sizes::size_at;
use sel_base::{NoMemory, Range};
use sel_grammar::Pattern;

/// A nonterminal that a tree is to be derived from, with its budget of rules; an operator without kids,
/// whose attribute is to be drawn; or an operator over the last tree, or over the last two.
#[derive(Clone, Copy, Debug, Drop)]
pub enum Task {
    Derive { nonterminal: u16, budget: u32 },
    Draw { operator: u8, range: Option<Range> },
    Wrap(u8),
    Join(u8),
}

fn least(sizes: &[Option<u32>], nonterminal: u16) -> u32
    ensures { result ≡ unwrap_or (size_at sizes.now nonterminal) 0 }
{
    match size_at(sizes, nonterminal as usize) {
        Some(size) => size,
        None => 0,
    }
}

/// Puts the sizes of the pattern's nonterminals behind the others, from left to right.
#[tactic(auto, using(crate::proofs::Patterns::leaf_cases))]
pub fn push_leaves(
    pattern: &Pattern,
    sizes: &[Option<u32>],
    leaves: &mut Vec<u32>,
) -> Result<(), NoMemory>
    ensures { IfOk result (λ _. leaves.new.items ≡ leaves.old.items ++ leaf_sizes sizes.now pattern.now) }
{
    match pattern {
        Pattern::Leaf(nonterminal) => {
            leaves.push(least(sizes, *nonterminal))?;
            Ok(())
        }
        Pattern::Nullary(_) => Ok(()),
        Pattern::Unary(_, below) => {
            push_leaves(below.get(), sizes, leaves)?;
            Ok(())
        }
        Pattern::Binary(_, left, right) => {
            push_leaves(left.get(), sizes, leaves)?;
            push_leaves(right.get(), sizes, leaves)?;
            Ok(())
        }
    }
}

fn pop_share(shares: &mut Vec<u32>) -> u32
    ensures { (front : List ℕ) (share : ℕ) → shares.old.items ≡ front ++ share ∷ [] → (result ≡ share) × (shares.new.items ≡ front) }
{
    match shares.pop() {
        Some(share) => share,
        None => 0,
    }
}

/// Puts the pattern's steps on the tasks, the last one first, and takes the shares of its nonterminals
/// off the shares' end.
pub fn push_steps(
    pattern: &Pattern,
    range: &Option<Range>,
    shares: &mut Vec<u32>,
    tasks: &mut Vec<Task>,
) -> Result<(), NoMemory>
    ensures { (front own : List ℕ) → shares.old.items ≡ front ++ own → length own ≡ length (leaves pattern.now)
        → IfOk result (λ _. HasPushed range.now pattern.now front own shares.new.items tasks.old.items tasks.new.items) }
{
    match pattern {
        Pattern::Leaf(nonterminal) => {
            let budget = pop_share(shares);
            tasks.push(Task::Derive {
                nonterminal: *nonterminal,
                budget,
            })?;
            Ok(())
        }
        Pattern::Nullary(operator) => {
            tasks.push(Task::Draw {
                operator: *operator,
                range: *range,
            })?;
            Ok(())
        }
        Pattern::Unary(operator, below) => {
            tasks.push(Task::Wrap(*operator))?;
            push_steps(below.get(), range, shares, tasks)?;
            Ok(())
        }
        Pattern::Binary(operator, left, right) => {
            tasks.push(Task::Join(*operator))?;
            push_steps(right.get(), range, shares, tasks)?;
            push_steps(left.get(), range, shares, tasks)?;
            Ok(())
        }
    }
}
