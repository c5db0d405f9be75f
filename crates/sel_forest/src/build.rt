//! Trees in postorder, built over a stack of open nodes.

ghost use Rattle.std.specs.Prelude.{◌≡◌, ℕ, List, [], ◌∷◌, ◌++◌, ◌<◌, ◌≤◌, ◌^◌, length, OnOk, IfOk};
ghost use Rattle.sel_grammar.specs.declared.grammar.Grammar.{Grammar as AnyGrammar};
ghost use Rattle.sel_forest.specs.declared.forest.Node.{Node as AnyNode};
ghost use Rattle.sel_forest.specs.declared.forest.Tree.{Tree as AnyTree};
ghost use Rattle.sel_forest.specs.Building.{HasBuilt};
ghost use Rattle.sel_forest.specs.OpenNodes.{attached, Opened, opened_next, Holds, TakesToken};
ghost use Rattle.sel_forest.specs.Pieces.{view, IsLawful, IsNamedBy};

use crate::forest::{Node, Tree};
use crate::number::number;
use crate::taker::Taker;
use crate::tokens::Piece;
use sel_base::{List, NoMemory};
use sel_grammar::Attribute;
use std::alloc::Global;

fn attach(node: &mut Node, at: u32)
    ensures { node.new ≡ attached node.old at }
{
    if node.kids == 0 {
        node.kids = 1;
        node.left = at;
    } else {
        node.kids = 2;
        node.right = at;
    }
}

/// The innermost open node is whole: it goes to the nodes, and is a kid of the one around it.
fn close(stack: &mut Vec<Node>, nodes: &mut Vec<Node>) -> Result<(), NoMemory>
    requires { length nodes.old.items < 2 ^ 32 }
    ensures { (below : List Node) (outer inner : Node) → stack.old.items ≡ (below ++ (outer ∷ [])) ++ (inner ∷ []) → OnOk result (
        (stack.new.items ≡ below ++ (attached outer (length nodes.old.items) ∷ [])) × (nodes.new.items ≡ nodes.old.items ++ (inner ∷ []))) }
{
    if stack.is_empty() {
        return Ok(());
    }
    let at = nodes.len() as u32;
    nodes.reserve(1)?;
    nodes.push_reserved(stack.take_last());
    if let Some(outer) = stack.last_mut() {
        attach(outer, at);
    }
    Ok(())
}

/// Gives the innermost open node an attribute.
fn set_attribute(stack: &mut Vec<Node>, attribute: Attribute)
    ensures { (below : List Node) (inner : Node) → stack.old.items ≡ below ++ (inner ∷ []) →
        stack.new.items ≡ below ++ (record { operator = inner.operator; kids = inner.kids; left = inner.left; right = inner.right; attribute = attribute } ∷ []) }
{
    if let Some(inner) = stack.last_mut() {
        inner.attribute = attribute;
    }
}

/// What a token does to the open nodes. The operator is that which the token names.
fn take(
    alloc: Global,
    stack: &mut Vec<Node>,
    nodes: &mut Vec<Node>,
    operator: u8,
    piece: &Piece<'_>,
) -> Result<(), NoMemory>
    requires room { length nodes.old.items < 2 ^ 32 }
    requires lawful { IsLawful (view piece.now) }
    ensures { (g : AnyGrammar) (os : List Opened) → IsNamedBy g operator (view piece.now) → Holds os stack.old.items nodes.old.items → TakesToken os (view piece.now)
        → IfOk result (λ _. Holds (opened_next g os (view piece.now)) stack.new.items nodes.new.items) }
{
    match piece {
        Piece::Name(_) => {
            stack.push(Node {
                operator,
                kids: 0,
                left: 0,
                right: 0,
                attribute: Attribute::Absent,
            })?;
            Ok(())
        }
        Piece::Number(bytes) => {
            if let Some(number) = number(bytes) {
                set_attribute(stack, Attribute::Number(number));
            }
            Ok(())
        }
        Piece::Symbol(bytes) => {
            let symbol = List::from_vec(Vec::from_slice(alloc, bytes)?);
            set_attribute(stack, Attribute::Symbol(symbol));
            Ok(())
        }
        Piece::Comma | Piece::Close => {
            close(stack, nodes)?;
            Ok(())
        }
        _ => Ok(()),
    }
}

/// Builds the trees of a text. The stack has the open nodes of a line, and the nodes are those that
/// are whole: both keep their room from line to line.
#[derive(Drop)]
pub struct TreeBuilder {
    alloc: Global,
    trees: List<Tree>,
    stack: Vec<Node>,
    nodes: Vec<Node>,
}

impl TreeBuilder {
    pub fn new(alloc: Global) -> TreeBuilder
        ensures { (g : AnyGrammar) → HasBuilt g result [] [] }
    {
        TreeBuilder {
            alloc,
            trees: List::new(alloc),
            stack: Vec::new(alloc),
            nodes: Vec::new(alloc),
        }
    }

    /// The trees that were built.
    pub fn into_trees(self) -> List<Tree>
        ensures { (g : AnyGrammar) (trees : List AnyTree) → HasBuilt g self trees [] → result ≡ trees }
    {
        self.trees
    }

    // The root ends with its line: the nodes and it are the tree, which gets the room that they take.
    fn finish(&mut self) -> Result<(), NoMemory>
        ensures { (root : AnyNode) → self.old.stack.items ≡ root ∷ [] → OnOk result ((self.new.stack.items ≡ []) × (self.new.nodes.items ≡ [])
            × (self.new.trees ≡ self.old.trees ++ record { nodes = self.old.nodes.items ++ (root ∷ []) } ∷ [])) }
    {
        if let Some(root) = self.stack.pop() {
            self.nodes.push(root)?;
            let mut nodes = Vec::with_capacity(self.alloc, self.nodes.len())?;
            nodes.append(&mut self.nodes)?;
            self.trees.push(Tree {
                nodes: List::from_vec(nodes),
            })?;
        }
        Ok(())
    }
}

impl Taker for TreeBuilder {
    ghost took = { λ builder g trees ts. HasBuilt g builder trees ts };

    fn take(&mut self, operator: u8, piece: &Piece<'_>) -> Result<(), NoMemory> {
        take(
            self.alloc,
            &mut self.stack,
            &mut self.nodes,
            operator,
            piece,
        )?;
        Ok(())
    }

    fn end(&mut self, _: &[u8], _: bool) -> Result<(), NoMemory> {
        self.finish()?;
        Ok(())
    }
}
