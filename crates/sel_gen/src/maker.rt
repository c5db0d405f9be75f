// Trees that are made one after the other.
ghost use Rattle.std.specs.Prelude.{◌≡◌, ◌+◌, ◌≤◌, ◌↔◌, List, [], ◌∷◌, IsNone, IfOk, IfSome, IfNone, OnErr};
ghost use Rattle.sel_grammar.specs.Lawful.{IsLawful};
ghost use Rattle.sel_forest.specs.Limits.{most_trees};
ghost use Rattle.sel_forest.specs.Valid.{IsValidTree};
ghost use Rattle.sel_gen.specs.Made.{most_size, IsMadeForest};
ghost use Rattle.sel_gen.specs.Maker.{AreToCome, count_for};

use crate::choices::{Choice, choices};
use crate::grow::Growth;
use crate::sizes::{least_sizes, size_at};
use rand_core::SeedableRng;
use rand_pcg::Lcg128Xsl64;
use sel_base::{List, NoMemory};
use sel_forest::Tree;
use sel_grammar::Grammar;
use std::alloc::Global;
use std::marker::Model;

/// Makes the trees of a forest, one after the other, with one stream of words, so that nobody has to hold
/// them all. The lists that it works with are kept from tree to tree.
#[derive(Debug, Drop)]
pub struct TreeMaker<'a> {
    grammar: &'a Grammar,
    sizes: Vec<Option<u32>>,
    choices: Vec<Choice>,
    growth: Growth,
    words: Lcg128Xsl64,
    budget: u32,
    left: u32,
}

impl<'a> Model for TreeMaker<'a> {
    ghost use Rattle.sel_gen.specs.Maker.{Maker, maker_code, IsEquipped};

    ghost Value = { Maker };

    ghost coded = { maker_code };

    ghost view = { λ m. record {
      grammar = m.grammar.now;
      sizes = m.sizes.items;
      budget = m.budget;
      left = m.left;
      words = m.words;
    } };

    ghost invariant = { λ m. IsEquipped (record {
      grammar = m.grammar.now;
      sizes = m.sizes.items;
      budget = m.budget;
      left = m.left;
      words = m.words;
    }) m.choices.items };
}

/// How many trees are made: none where the start symbol has no size.
fn count_for(least: Option<u32>, trees: u32) -> u32
    ensures { result ≡ count_for least trees }
{
    match least {
        Some(_) => trees,
        None => 0,
    }
}

impl<'a> TreeMaker<'a> {
    /// The maker of the forest that `make_forest` makes of the same grammar and numbers.
    pub fn new(
        alloc: Global,
        grammar: &'a Grammar,
        seed: u64,
        trees: u32,
        size: u32,
    ) -> Result<TreeMaker<'a>, NoMemory>
        requires lawful { IsLawful grammar.now }
        requires trees { trees ≤ most_trees }
        requires from { 1 ≤ size }
        requires to { size ≤ most_size }
        ensures first { IfOk result (λ maker. (made : List Tree) → AreToCome maker made → IsMadeForest grammar.now seed trees size (record { trees = made })) }
        ensures comes { IfOk result (λ maker. (made : List Tree) → IsMadeForest grammar.now seed trees size (record { trees = made }) → AreToCome maker made) }
        ensures grammar { IfOk result (λ maker. maker.grammar ≡ grammar.now) }
        ensures few { IfOk result (λ maker. maker.left ≤ trees) }
    {
        let sizes = least_sizes(alloc, grammar, size)?;
        let choices = choices(alloc, grammar, sizes.as_slice())?;
        let least = size_at(sizes.as_slice(), grammar.start as usize);
        Ok(TreeMaker {
            grammar,
            sizes,
            choices,
            growth: Growth::new(alloc),
            words: Lcg128Xsl64::seed_from_u64(seed),
            budget: size,
            left: count_for(least, trees),
        })
    }

    /// The next tree, or None behind the last one. Where memory is wanting, the same tree is still to come.
    /// No tree is left out: a rule has at most 63 names, so that a tree of at most 1,000 rules is within a
    /// forest's limits.
    pub fn next(&mut self, alloc: Global) -> Result<Option<Tree>, NoMemory>
        ensures next { IfOk result (λ answer. IfSome answer (λ tree. (rest : List Tree) → AreToCome self.new rest → AreToCome self.old (tree ∷ rest))) }
        ensures first { IfOk result (λ answer. IfSome answer (λ tree. (trees : List Tree) → AreToCome self.old trees → (rest : List Tree) × (AreToCome self.new rest × (trees ≡ tree ∷ rest)))) }
        ensures valid { IfOk result (λ answer. IfSome answer (λ tree. IsValidTree self.old.grammar tree)) }
        ensures fewer { IfOk result (λ answer. IfSome answer (λ _. self.new.left + 1 ≡ self.old.left)) }

        ensures last { IfOk result (λ answer. IfNone answer (AreToCome self.old [])) }
        ensures none { IfOk result (λ answer. IsNone answer ↔ (self.old.left ≡ 0)) }
        ensures again { IfOk result (λ answer. IfNone answer (self.new ≡ self.old)) }

        ensures grammar { self.new.grammar ≡ self.old.grammar }
        ensures err { OnErr result (self.new ≡ self.old) }
    {
        if self.left == 0 {
            return Ok(None);
        }
        // A copy, since the words stay where they are if there is no memory for the tree.
        let mut words = self.words.clone()?;
        let nodes = self.growth.grow(
            alloc,
            self.grammar,
            self.sizes.as_slice(),
            self.choices.as_slice(),
            self.budget,
            &mut words,
        )?;
        self.words = words;
        self.left -= 1;
        Ok(Some(Tree {
            nodes: List::from_vec(nodes),
        }))
    }
}
