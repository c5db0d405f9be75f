// How two passes meet at one leaf, call by call, and what comes of it.
ghost use Rattle.std.specs.Prelude.{◌≡◌};
ghost use Rattle.sel_forest.specs.Valid.{IsValidForest};
ghost use Rattle.sel_items.specs.Laws.{IsAcceptedForm};
ghost use Rattle.sel_rows.specs.Told.{standing_of, told_of_pass};

use crate::accepted::Accepted;
use crate::meeting::{find_above, meet};
use crate::stop::Stop;
use crate::turns::{take_turns, turn};
use sel_base::Steps;
use sel_forest::Forest;
use sel_rows::Pass;
use std::alloc::Global;
use std::sync::ledger::Ledger;

/// What passes do with the trees.
#[derive(Clone, Copy, PartialEq, Eq)]
pub enum Game {
    /// They label them in turns.
    Turns,
    /// They meet at the first one, and label the second one.
    Meeting,
}

// The passes meet at the first tree, which is a leaf; where the turns begin with `Q` the second pass labels it in
// between. Then the first labels the second tree, whose root is over that leaf, and the second looks up the root's
// key and labels the tree.
fn take_calls<L: Ledger>(
    first: &mut Pass<'_>,
    second: &mut Pass<'_>,
    alloc: Global,
    accepted: &Accepted,
    forest: &Forest,
    turns: &[u8],
    text: &mut String,
    steps: &mut Steps<L>,
) -> Result<(), Stop>
    requires first { (told_of_pass first.old).normal ≡ accepted.now.normal }
    requires second { (told_of_pass second.old).normal ≡ accepted.now.normal }
    requires form { IsAcceptedForm accepted.now.grammar accepted.now.normal }
    requires valid { IsValidForest accepted.now.grammar forest.now }
    ensures first { standing_of first.new ≡ standing_of first.old }
    ensures second { standing_of second.new ≡ standing_of second.old }
{
    let (Some(leaf), Some(above)) = (forest.trees.get(0), forest.trees.get(1)) else {
        return Err(Stop::Unfit("there are no two trees"));
    };
    let (Some(root), Some(over)) = (leaf.nodes.get(0), above.nodes.get(1)) else {
        return Err(Stop::Unfit("the second tree has no node over a leaf"));
    };
    let may_second = turns.first() == Some(&b'Q');
    meet(
        first,
        second,
        alloc,
        accepted,
        leaf,
        root.operator,
        may_second,
        text,
        steps,
    )?;
    turn(first, alloc, accepted, above, text, steps)?;
    find_above(second, alloc, accepted, leaf, over.operator, text, steps)?;
    turn(second, alloc, accepted, above, text, steps)
}

/// The passes play with the trees in turns.
pub fn take_all<L: Ledger>(
    game: Game,
    first: &mut Pass<'_>,
    second: &mut Pass<'_>,
    alloc: Global,
    accepted: &Accepted,
    forest: &Forest,
    turns: &[u8],
    text: &mut String,
    steps: &mut Steps<L>,
) -> Result<(), Stop>
    requires first { (told_of_pass first.old).normal ≡ accepted.now.normal }
    requires second { (told_of_pass second.old).normal ≡ accepted.now.normal }
    requires form { IsAcceptedForm accepted.now.grammar accepted.now.normal }
    requires valid { IsValidForest accepted.now.grammar forest.now }
    ensures first { standing_of first.new ≡ standing_of first.old }
    ensures second { standing_of second.new ≡ standing_of second.old }
{
    match game {
        Game::Turns => take_turns(first, second, alloc, accepted, forest, turns, text, steps),
        Game::Meeting => take_calls(first, second, alloc, accepted, forest, turns, text, steps),
    }
}
