ghost use Rattle.std.specs.Prelude.{◌≡◌, ◌<◌, ◌+◌, ◌*◌, ◌++◌, ◌∷◌, [], length, OnOk, OnErr};
ghost use Rattle.sel_plain.specs.Rows.{entry_at, row_at};

use crate::entry::Entry;
use sel_base::NoMemory;
use std::alloc::Global;
use std::marker::Model;

/// A row of entries for each node of a tree, and in it a place for each nonterminal, row behind row in one list.
#[derive(Debug, Drop)]
pub struct Table {
    entries: Vec<Option<Entry>>,
    width: usize,
    count: usize,
}

impl Model for Table {
    ghost use Rattle.std.specs.Prelude.{◌≡◌, ◌*◌, length};
    ghost use Rattle.sel_plain.specs.Rows.{Rows, rows_of};

    ghost Value = { Rows };

    ghost view = { λ t. record { width = t.width; rows = rows_of t.count t.width t.entries.items } };

    ghost invariant = { λ t. length t.entries.items ≡ t.count * t.width };
}

/// What the row has for the nonterminal.
pub fn entry_of(row: &[Option<Entry>], nonterminal: usize) -> Option<Entry>
    ensures { result ≡ entry_at row.now nonterminal }
{
    match row.get(nonterminal) {
        Some(entry) => *entry,
        None => None,
    }
}

impl Table {
    /// A table without rows, each of which is to have so many places.
    pub fn new(alloc: Global, width: usize) -> Table
        ensures { result ≡ record { width = width; rows = [] } }
    {
        Table {
            entries: Vec::new(alloc),
            width,
            count: 0,
        }
    }

    /// Puts the row behind the others.
    pub fn push(&mut self, row: &[Option<Entry>]) -> Result<(), NoMemory>
        requires width { length row.now ≡ self.old.width }
        requires few { length self.old.rows < usize.MAX }
        ensures ok { OnOk result (self.new ≡ record { width = self.old.width; rows = self.old.rows ++ row.now ∷ [] }) }
        ensures err { OnErr result (self.new ≡ self.old) }
    {
        self.entries.extend_from_slice(row)?;
        self.count += 1;
        Ok(())
    }

    /// What the row of the node has for the nonterminal.
    pub fn entry(&self, at: usize, nonterminal: usize) -> Option<Entry>
        ensures { result ≡ entry_at (row_at self.now.rows at) nonterminal }
    {
        if at < self.count && nonterminal < self.width {
            entry_of(self.entries.as_slice(), at * self.width + nonterminal)
        } else {
            None
        }
    }
}
