// One tree, grown by a stack of tasks.
ghost use Rattle.std.specs.Prelude.{◌≡◌, ◌<◌, ◌≤◌, ◌+◌, ◌-◌, ◌*◌, ◌∷◌, [], ◌++◌, ◌^◌, ℕ, List, Some, true, length, map, sum, reverse, slice_get, IfOk, unwrap_or, option_and_then};
ghost use Rattle.rand_pcg.specs.Lcg.{Lcg};
ghost use Rattle.sel_grammar.specs.Lawful.{IsLawful};
ghost use Rattle.sel_forest.specs.Valid.{IsAttribute};
ghost use Rattle.sel_gen.specs.Sizes.{is_usable, size_at};
ghost use Rattle.sel_gen.specs.Made.{most_size, leaf_sizes, word, behind, attribute_by, candidates};
ghost use Rattle.sel_gen.specs.Drawing.{choice_of};
ghost use Rattle.sel_gen.specs.Growing.{IsSpread, IsDerived, IsGrowing, HasGrown, AreLeastWithin, weights};

use crate::choices::{Choice, pick};
use crate::draw::{attribute, next, share_out};
use crate::tasks::{Task, push_leaves, push_steps};
use rand_pcg::Lcg128Xsl64;
use sel_base::{NoMemory, Range};
use sel_forest::{Attribute, Node};
use sel_grammar::{Grammar, Rule};
use std::alloc::Global;
use std::mem;

/// What a tree grows in: the tasks that are left, the next one last; the nodes so far; the places of the
/// roots of trees that are whole and under no node yet; and room for one rule's leaves and their shares.
/// The lists are kept from tree to tree.
#[derive(Debug, Drop)]
pub struct Growth {
    pub tasks: Vec<Task>,
    pub nodes: Vec<Node>,
    pub roots: Vec<u32>,
    pub leaves: Vec<u32>,
    pub shares: Vec<u32>,
}

/// The size of the choice's rule, which is 0 where there is none.
fn size_of(choices: &[Choice], place: usize) -> u32
    ensures { result ≡ unwrap_or (option_and_then (λ choice. choice.size) (slice_get choices.now place)) 0 }
{
    match choices.get(place) {
        Some(choice) => match choice.size {
            Some(size) => size,
            None => 0,
        },
        None => 0,
    }
}

impl Growth {
    pub fn new(alloc: Global) -> Growth {
        Growth {
            tasks: Vec::new(alloc),
            nodes: Vec::new(alloc),
            roots: Vec::new(alloc),
            leaves: Vec::new(alloc),
            shares: Vec::new(alloc),
        }
    }

    /// Shares the spare out among the rule's leaves, and puts the rule's steps on the tasks.
    fn spread(
        &mut self,
        rule: &Rule,
        spare: u32,
        sizes: &[Option<u32>],
        words: &mut Lcg128Xsl64,
    ) -> Result<(), NoMemory>
        requires { sum (leaf_sizes sizes.now rule.now.pattern) + spare < 2 ^ 32 }
        ensures spread { IfOk result (λ _. IsSpread sizes.now rule.now spare words.old words.new self.old.tasks.items self.new.tasks.items) }
        ensures nodes { self.new.nodes ≡ self.old.nodes }
        ensures roots { self.new.roots ≡ self.old.roots }
    {
        self.leaves.clear();
        push_leaves(&rule.pattern, sizes, &mut self.leaves)?;
        share_out(self.leaves.as_slice(), spare, words, &mut self.shares)?;
        push_steps(
            &rule.pattern,
            &rule.range,
            &mut self.shares,
            &mut self.tasks,
        )?;
        Ok(())
    }

    /// Draws a rule for the nonterminal, and spreads it.
    fn derive(
        &mut self,
        grammar: &Grammar,
        sizes: &[Option<u32>],
        choices: &[Choice],
        nonterminal: u16,
        budget: u32,
        words: &mut Lcg128Xsl64,
    ) -> Result<(), NoMemory>
        requires choices { choices.now ≡ map (choice_of sizes.now) grammar.now.rules }
        requires some { 0 < length (candidates grammar.now sizes.now nonterminal budget) }
        requires small { budget ≤ most_size }
        ensures derived { IfOk result (λ _. IsDerived grammar.now sizes.now nonterminal budget words.old words.new self.old.tasks.items self.new.tasks.items) }
        ensures nodes { self.new.nodes ≡ self.old.nodes }
        ensures roots { self.new.roots ≡ self.old.roots }
    {
        let place = pick(choices, nonterminal, budget, words);
        let size = size_of(choices, place);
        match grammar.rules.get(place) {
            Some(rule) => {
                self.spread(rule, budget - size, sizes, words)?;
                Ok(())
            }
            None => unreachable!(),
        }
    }

    /// Puts a node behind the others, as the root of a whole tree.
    fn put(&mut self, node: Node) -> Result<(), NoMemory>
        requires { length self.old.nodes.items < 2 ^ 32 }
        ensures nodes { IfOk result (λ _. self.new.nodes.items ≡ self.old.nodes.items ++ node ∷ []) }
        ensures roots { IfOk result (λ _. self.new.roots.items ≡ self.old.roots.items ++ length self.old.nodes.items ∷ []) }
        ensures tasks { self.new.tasks ≡ self.old.tasks }
    {
        self.roots.push(self.nodes.len() as u32)?;
        self.nodes.push(node)?;
        Ok(())
    }

    /// Puts a node without kids, whose attribute is drawn.
    fn draw(
        &mut self,
        alloc: Global,
        operator: u8,
        range: &Option<Range>,
        words: &mut Lcg128Xsl64,
    ) -> Result<(), NoMemory>
        requires usable { is_usable range.now ≡ true }
        requires few { length self.old.nodes.items < 2 ^ 32 }
        ensures nodes { IfOk result (λ _. self.new.nodes.items ≡ self.old.nodes.items ++ record { operator = operator; kids = 0; left = 0; right = 0; attribute = attribute_by range.now (word words.old) } ∷ []) }
        ensures lawful { IfOk result (λ _. IsAttribute (attribute_by range.now (word words.old))) }
        ensures roots { IfOk result (λ _. self.new.roots.items ≡ self.old.roots.items ++ length self.old.nodes.items ∷ []) }
        ensures behind { words.new ≡ behind words.old }
        ensures tasks { self.new.tasks ≡ self.old.tasks }
    {
        let attribute = attribute(alloc, range, next(words))?;
        self.put(Node {
            operator,
            kids: 0,
            left: 0,
            right: 0,
            attribute,
        })?;
        Ok(())
    }

    /// Takes the last root off.
    fn pop_root(&mut self) -> u32
        ensures root { (below : List ℕ) (root : ℕ) → self.old.roots.items ≡ below ++ root ∷ [] → (result ≡ root) × (self.new.roots.items ≡ below) }
        ensures nodes { self.new.nodes ≡ self.old.nodes }
        ensures tasks { self.new.tasks ≡ self.old.tasks }
    {
        match self.roots.pop() {
            Some(root) => root,
            None => 0,
        }
    }

    /// Puts a node over the last tree.
    fn wrap(&mut self, operator: u8) -> Result<(), NoMemory>
        requires { length self.old.nodes.items < 2 ^ 32 }
        ensures wrapped { (below : List ℕ) (left : ℕ) → self.old.roots.items ≡ below ++ left ∷ [] → IfOk result (λ _.
            (self.new.nodes.items ≡ self.old.nodes.items ++ record { operator = operator; kids = 1; left = left; right = 0; attribute = Attribute.Absent } ∷ [])
            × (self.new.roots.items ≡ below ++ length self.old.nodes.items ∷ [])) }
        ensures tasks { self.new.tasks ≡ self.old.tasks }
    {
        let left = self.pop_root();
        self.put(Node {
            operator,
            kids: 1,
            left,
            right: 0,
            attribute: Attribute::Absent,
        })?;
        Ok(())
    }

    /// Puts a node over the last two trees.
    fn join(&mut self, operator: u8) -> Result<(), NoMemory>
        requires { length self.old.nodes.items < 2 ^ 32 }
        ensures joined { (below : List ℕ) (left right : ℕ) → self.old.roots.items ≡ (below ++ left ∷ []) ++ right ∷ [] → IfOk result (λ _.
            (self.new.nodes.items ≡ self.old.nodes.items ++ record { operator = operator; kids = 2; left = left; right = right; attribute = Attribute.Absent } ∷ [])
            × (self.new.roots.items ≡ below ++ length self.old.nodes.items ∷ [])) }
        ensures tasks { self.new.tasks ≡ self.old.tasks }
    {
        let right = self.pop_root();
        let left = self.pop_root();
        self.put(Node {
            operator,
            kids: 2,
            left,
            right,
            attribute: Attribute::Absent,
        })?;
        Ok(())
    }

    /// Does a task that was the last one.
    fn perform(
        &mut self,
        alloc: Global,
        grammar: &Grammar,
        sizes: &[Option<u32>],
        choices: &[Choice],
        task: Task,
        words: &mut Lcg128Xsl64,
    ) -> Result<(), NoMemory>
        requires lawful { IsLawful grammar.now }
        requires least { AreLeastWithin grammar.now sizes.now }
        requires choices { choices.now ≡ map (choice_of sizes.now) grammar.now.rules }
        requires growing { (budget : ℕ) × (before : Lcg) × (budget ≤ most_size) × IsGrowing grammar.now sizes.now budget before (task ∷ reverse self.old.tasks.items) words.old self.old.nodes.items self.old.roots.items }
        ensures grows { (budget : ℕ) (before : Lcg) → IsGrowing grammar.now sizes.now budget before (task ∷ reverse self.old.tasks.items) words.old self.old.nodes.items self.old.roots.items
            → IfOk result (λ _. IsGrowing grammar.now sizes.now budget before (reverse self.new.tasks.items) words.new self.new.nodes.items self.new.roots.items) }
        ensures lighter { IfOk result (λ _. weights (reverse self.new.tasks.items) < weights (task ∷ reverse self.old.tasks.items)) }
    {
        match task {
            Task::Derive {
                nonterminal,
                budget,
            } => {
                self.derive(grammar, sizes, choices, nonterminal, budget, words)?;
                Ok(())
            }
            Task::Draw { operator, range } => {
                self.draw(alloc, operator, &range, words)?;
                Ok(())
            }
            Task::Wrap(operator) => {
                self.wrap(operator)?;
                Ok(())
            }
            Task::Join(operator) => {
                self.join(operator)?;
                Ok(())
            }
        }
    }

    /// Begins a tree from the start symbol.
    fn begin(&mut self, start: u16, budget: u32) -> Result<(), NoMemory>
        ensures tasks { IfOk result (λ _. self.new.tasks.items ≡ Task.Derive start budget ∷ []) }
        ensures nodes { IfOk result (λ _. self.new.nodes.items ≡ []) }
        ensures roots { IfOk result (λ _. self.new.roots.items ≡ []) }
    {
        self.tasks.clear();
        self.nodes.clear();
        self.roots.clear();
        self.tasks.push(Task::Derive {
            nonterminal: start,
            budget,
        })?;
        Ok(())
    }

    /// The nodes of one tree that is made from the start symbol, with a budget of rules. Its depth costs
    /// no stack: kids come before their node, and operators with kids draw no word, so words are drawn
    /// in the preorder that is asked.
    pub fn grow(
        &mut self,
        alloc: Global,
        grammar: &Grammar,
        sizes: &[Option<u32>],
        choices: &[Choice],
        budget: u32,
        words: &mut Lcg128Xsl64,
    ) -> Result<Vec<Node>, NoMemory>
        requires lawful { IsLawful grammar.now }
        requires least { AreLeastWithin grammar.now sizes.now }
        requires choices { choices.now ≡ map (choice_of sizes.now) grammar.now.rules }
        requires start { (k : ℕ) × (size_at sizes.now grammar.now.start ≡ Some k) × (k ≤ budget) }
        requires small { budget ≤ most_size }
        ensures { IfOk result (λ nodes. HasGrown grammar.now sizes.now budget words.old words.new nodes.items) }
    {
        self.begin(grammar.start, budget)?;
        'tasks: while let Some(task) = self.tasks.pop() {
            self.perform(alloc, grammar, sizes, choices, task, words)?;
        }
        Ok(mem::replace(&mut self.nodes, Vec::new(alloc)))
    }
}
