// A grammar that is accepted, and what is kept from tree to tree.
ghost use Rattle.std.specs.Prelude.{◌≤◌};
ghost use Rattle.sel_c.specs.Rooms.{IsEmptied};
ghost use Rattle.sel_c.specs.Usable.{IsUsable};

use sel_auto::ParkedAutomaton;
use sel_expand::Expander;
use sel_grammar::Grammar;
use sel_normal::Normal;

/// A grammar that is accepted, its normal form, the automaton between two trees where there is one yet, how
/// many states and transitions it may keep, and room for texts.
#[derive(Drop)]
pub struct Accepted {
    pub grammar: Grammar,
    pub normal: Normal,
    pub parked: Option<ParkedAutomaton>,
    pub states: u32,
    pub rows: u32,
    pub expander: Expander,
}

impl Accepted {
    /// Forgets what was learned, and keeps at most so many states and transitions from now on.
    pub fn make_room(&mut self, states: u32, rows: u32)
        requires states { states ≤ 32768 }
        requires rows { rows ≤ 1048576 }
        ensures emptied { IsEmptied states rows self.old self.new }
        ensures usable { IsUsable self.old → IsUsable self.new }
    {
        self.parked = None;
        self.states = states;
        self.rows = rows;
    }
}
