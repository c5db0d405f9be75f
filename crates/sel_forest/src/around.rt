//! What surrounds a place of a line.

ghost use Rattle.std.specs.Prelude.{◌≡◌, ◌<◌, ◌^◌, reverse, length, OnOk, IfSome};
ghost use Rattle.sel_grammar.specs.declared.grammar.Grammar.{Grammar as AnyGrammar};
ghost use Rattle.sel_forest.specs.LineFaults as faults;
ghost use Rattle.sel_forest.specs.LineFaults.{at_start, around_next, with_parent, with_whole_kid, without_first};
ghost use Rattle.sel_forest.specs.OpenNodes.{first_parent};
ghost use Rattle.sel_forest.specs.Pieces.{view, IsNamedBy};

use crate::tokens::Piece;
use sel_base::NoMemory;
use std::alloc::Global;
use std::marker::Model;

/// An operator whose parenthesis is open, and how many of its kids are whole.
#[derive(Clone, Copy, Debug, Drop)]
pub struct Parent {
    pub operator: u8,
    pub kids: u8,
}

/// The last operator becomes a parent.
fn open(parents: &mut Vec<Parent>, bare: Option<u8>) -> Result<(), NoMemory>
    ensures { OnOk result (reverse parents.new.items ≡ with_parent bare (reverse parents.old.items)) }
{
    if let Some(operator) = bare {
        parents.push(Parent { operator, kids: 0 })?;
    }
    Ok(())
}

/// The innermost parent has one whole kid more.
fn count_kid(parents: &mut Vec<Parent>)
    requires { IfSome (first_parent (reverse parents.old.items)) (λ parent. parent.kids < 255) }
    ensures { reverse parents.new.items ≡ with_whole_kid (reverse parents.old.items) }
{
    if let Some(parent) = parents.last_mut() {
        parent.kids += 1;
    }
}

/// The innermost parent is whole.
fn close(parents: &mut Vec<Parent>)
    ensures { reverse parents.new.items ≡ without_first (reverse parents.old.items) }
{
    parents.pop();
}

/// What surrounds a place of a line: how many names came before it, the operator that came last where
/// no parenthesis followed it, and the parents there, the innermost last.
#[derive(Drop)]
pub struct Around {
    names: usize,
    bare: Option<u8>,
    parents: Vec<Parent>,
}

impl Model for Around {
    ghost Value = { faults.Around };

    ghost view = { λ a. record { names = a.names; bare = a.bare; parents = reverse a.parents.items } };
}

impl Around {
    /// What surrounds the start of a line.
    pub fn new(alloc: Global) -> Around
        ensures { result ≡ at_start }
    {
        Around {
            names: 0,
            bare: None,
            parents: Vec::new(alloc),
        }
    }

    /// Another line starts.
    pub fn restart(&mut self)
        ensures { self.new ≡ at_start }
    {
        self.names = 0;
        self.bare = None;
        self.parents.clear();
    }

    pub fn names(&self) -> usize
        ensures { result ≡ self.now.names }
    {
        self.names
    }

    pub fn bare(&self) -> Option<u8>
        ensures { result ≡ self.now.bare }
    {
        self.bare
    }

    /// How many parents there are.
    pub fn depth(&self) -> usize
        ensures { result ≡ length self.now.parents }
    {
        self.parents.len()
    }

    /// The innermost parent.
    pub fn innermost(&self) -> Option<Parent>
        ensures { result ≡ first_parent self.now.parents }
    {
        match self.parents.last() {
            None => None,
            Some(parent) => Some(*parent),
        }
    }

    /// Goes on behind a token. The operator is that which the token names.
    #[inline(always)]
    pub fn follow(&mut self, operator: u8, piece: &Piece<'_>) -> Result<(), NoMemory>
        requires names { self.old.names < 2 ^ 63 }
        requires kids { IfSome (first_parent self.old.parents) (λ parent. parent.kids < 255) }
        ensures { (g : AnyGrammar) → IsNamedBy g operator (view piece.now) → OnOk result (self.new ≡ around_next g self.old (view piece.now)) }
    {
        match piece {
            Piece::Name(_) => {
                self.names += 1;
                self.bare = Some(operator);
            }
            Piece::Open => {
                open(&mut self.parents, self.bare)?;
                self.bare = None;
            }
            Piece::Comma => {
                count_kid(&mut self.parents);
                self.bare = None;
            }
            Piece::Close => {
                close(&mut self.parents);
                self.bare = None;
            }
            _ => {}
        }
        Ok(())
    }
}
