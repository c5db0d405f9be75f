//! Forests printed as text.

ghost use Rattle.std.specs.Prelude.{◌≡◌, ◌++◌, ◌∷◌, [], List, IfOk, OnOk};
ghost use Rattle.sel_grammar.specs.PlainTrees.{PlainTree};
ghost use Rattle.sel_grammar.specs.declared.grammar.Grammar.{Grammar as AnyGrammar};
ghost use Rattle.sel_forest.specs.declared.forest.Tree.{Tree as AnyTree};
ghost use Rattle.sel_forest.specs.ForestText.{SpellsForest};
ghost use Rattle.sel_forest.specs.Postorder.{IsPostorderOf, IsTree};
ghost use Rattle.sel_forest.specs.Printed.{attribute_text, tree_text, operator_name, HasNames, IsPrinted};
ghost use Rattle.sel_forest.specs.Printing.{opening, node_tasks, head_text, task_text, task_below, HasPrinted};
ghost use Rattle.sel_forest.specs.Valid.{IsValidForest};

use crate::forest::{Forest, Node, Tree};
use crate::walk::node_at;
use sel_base::text::{put, put_signed};
use sel_base::{List, NoMemory};
use sel_grammar::{Attribute, Grammar};
use std::alloc::Global;

/// What is still to be printed: the tree of a node, or a byte behind a kid.
#[derive(Clone, Copy, Debug, Drop)]
pub enum Task {
    Tree(usize),
    Comma,
    Close,
}

fn put_name(grammar: &Grammar, operator: u8, text: &mut Vec<u8>) -> Result<(), NoMemory>
    ensures { OnOk result (text.new.items ≡ text.old.items ++ operator_name grammar.now operator) }
{
    if let Some(operator) = grammar.operators.get(operator as usize) {
        put(text, operator.name.as_slice())?;
    }
    Ok(())
}

fn put_attribute(attribute: &Attribute, text: &mut Vec<u8>) -> Result<(), NoMemory>
    ensures { OnOk result (text.new.items ≡ text.old.items ++ attribute_text attribute.now) }
{
    match attribute {
        Attribute::Absent => {}
        Attribute::Number(number) => {
            put(text, b":")?;
            put_signed(text, *number)?;
        }
        Attribute::Symbol(symbol) => {
            put(text, b":")?;
            put(text, symbol.as_slice())?;
        }
    }
    Ok(())
}

fn put_opening(node: &Node, text: &mut Vec<u8>) -> Result<(), NoMemory>
    ensures { OnOk result (text.new.items ≡ text.old.items ++ opening node.now) }
{
    if node.kids > 0 {
        put(text, b"(")?;
    }
    Ok(())
}

/// What stands before the node's kids.
fn put_head(grammar: &Grammar, node: &Node, text: &mut Vec<u8>) -> Result<(), NoMemory>
    ensures { OnOk result (text.new.items ≡ text.old.items ++ head_text grammar.now node.now) }
{
    put_name(grammar, node.operator, text)?;
    put_attribute(&node.attribute, text)?;
    put_opening(node, text)?;
    Ok(())
}

/// Puts what follows the node's head on the stack, the last first.
fn push_tasks(node: &Node, tasks: &mut Vec<Task>) -> Result<(), NoMemory>
    ensures { OnOk result (tasks.new.items ≡ tasks.old.items ++ node_tasks node.now) }
{
    if node.kids == 0 {
        return Ok(());
    }
    tasks.push(Task::Close)?;
    if node.kids > 1 {
        tasks.push(Task::Tree(node.right as usize))?;
        tasks.push(Task::Comma)?;
    }
    tasks.push(Task::Tree(node.left as usize))?;
    Ok(())
}

/// Prints what a task says at once, and leaves the rest of it on the stack.
fn perform(
    grammar: &Grammar,
    nodes: &[Node],
    task: Task,
    tasks: &mut Vec<Task>,
    text: &mut Vec<u8>,
) -> Result<(), NoMemory>
    ensures text { OnOk result (text.new.items ≡ text.old.items ++ task_text grammar.now nodes.now task) }
    ensures tasks { OnOk result (tasks.new.items ≡ tasks.old.items ++ task_below nodes.now task) }
{
    match task {
        Task::Comma => put(text, b",")?,
        Task::Close => put(text, b")")?,
        Task::Tree(at) => {
            if let Some(node) = node_at(nodes, at) {
                put_head(grammar, node, text)?;
                push_tasks(node, tasks)?;
            }
        }
    }
    Ok(())
}

/// Prints a tree. The stack is empty before and behind it.
fn print_tree(
    grammar: &Grammar,
    tree: &Tree,
    tasks: &mut Vec<Task>,
    text: &mut Vec<u8>,
) -> Result<(), NoMemory>
    requires tree { IsTree tree.now }
    requires empty { tasks.old.items ≡ [] }
    ensures text { IfOk result (λ _. (t : PlainTree) → IsPostorderOf tree.now t → text.new.items ≡ text.old.items ++ tree_text grammar.now t) }
    ensures emptied { OnOk result (tasks.new.items ≡ []) }
{
    let nodes = tree.nodes.as_slice();
    tasks.push(Task::Tree(nodes.len() - 1))?;
    'tasks: while let Some(task) = tasks.pop() {
        perform(grammar, nodes, task, tasks, text)?;
    }
    Ok(())
}

/// Prints trees, each on a line. Between two trees the stack is empty.
#[derive(Drop)]
pub struct Printer {
    tasks: Vec<Task>,
    text: Vec<u8>,
}

impl Printer {
    pub fn new(alloc: Global) -> Printer
        ensures { (g : AnyGrammar) → HasPrinted g result [] }
    {
        Printer {
            tasks: Vec::new(alloc),
            text: Vec::new(alloc),
        }
    }

    /// Prints a tree behind the others.
    pub fn print(&mut self, grammar: &Grammar, tree: &Tree) -> Result<(), NoMemory>
        requires so_far { (trees : List AnyTree) × HasPrinted grammar.now self.old trees }
        requires tree { IsTree tree.now }
        ensures { (trees : List AnyTree) → HasPrinted grammar.now self.old trees → OnOk result (HasPrinted grammar.now self.new (trees ++ tree.now ∷ [])) }
    {
        print_tree(grammar, tree, &mut self.tasks, &mut self.text)?;
        put(&mut self.text, b"\n")?;
        Ok(())
    }

    /// What is printed.
    pub fn into_text(self) -> List<u8>
        ensures { (g : AnyGrammar) (trees : List AnyTree) → HasPrinted g self trees → IsPrinted g (record { trees = trees }) result }
    {
        List::from_vec(self.text)
    }
}

/// The forest's text: each tree on a line without blanks, and behind each line a line feed. Numbers
/// are in decimal, with no leading zeros.
pub fn print_forest(alloc: Global, grammar: &Grammar, forest: &Forest) -> Result<List<u8>, NoMemory>
    requires valid { IsValidForest grammar.now forest.now }
    ensures text { IfOk result (λ text. IsPrinted grammar.now forest.now text) }
    ensures again { HasNames grammar.now → IfOk result (λ text. SpellsForest grammar.now text forest.now) }
{
    let mut printer = Printer::new(alloc);
    'trees: for tree in forest.trees.as_slice() {
        printer.print(grammar, tree)?;
    }
    Ok(printer.into_text())
}
