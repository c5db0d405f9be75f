//! Laws of complete tables. The functions do nothing: their contracts say them.
ghost use Rattle.sel_full.specs.Builds.{CompleteIsNotTooLarge, CompleteIsOne};
ghost use Rattle.sel_full.specs.FormLaws.{CompleteHasForm, TableFaultIsOne, LawfulHasNoFault};
ghost use Rattle.sel_full.specs.Laws.{ReachedFollow, ReachIsExact, TablesAreClosed, TablesHoldTrees, KeysHavePlaces, UnusedAreEmpty, StateKeysFollow, TreesAreReady};

/// What follows from a key over reached item sets is reached.
pub fn reached_follow()
    ensures { ReachedFollow }
{}

/// States that are reached, with the empty one among them, and from whose keys states follow alone, are
/// exactly what is reached.
pub fn reach_is_exact()
    ensures { ReachIsExact }
{}

/// A lawful table has the item set of each tree, of whatever size and depth.
pub fn tables_hold_trees()
    ensures closed { TablesAreClosed }
    ensures trees { TablesHoldTrees }
{}

/// Where each key stands among all.
pub fn keys_have_places()
    ensures { KeysHavePlaces }
{}

/// A node of an operator that no rule uses has the empty item set.
pub fn unused_are_empty()
    ensures { UnusedAreEmpty }
{}

/// From each key that an automaton over a lawful table is asked for follows one of its states.
pub fn state_keys_follow()
    ensures { StateKeysFollow }
{}

/// An automaton over a lawful table has the key of each node of a tree ready: so `label_tree` over it
/// takes no step, and each label is numbered.
pub fn trees_are_ready()
    ensures { TreesAreReady }
{}

/// No table is complete where its grammar's reach is too large: so a build answers each exactly where its
/// definition says so.
pub fn complete_is_not_too_large()
    ensures { CompleteIsNotTooLarge }
{}

/// A complete table has the form that the text of a table has: so its text may be loaded.
pub fn complete_has_form()
    ensures { CompleteHasForm }
{}

/// Of a table at most one thing is wrong first, and nothing is wrong with a lawful one.
pub fn table_faults_are_one()
    ensures one { TableFaultIsOne }
    ensures lawful { LawfulHasNoFault }
{}

/// A grammar has one complete table at most, whatever numbers of states and keys are allowed.
pub fn complete_is_one()
    ensures { CompleteIsOne }
{}
