//! Laws of the definitions. The functions do nothing: their contracts say them.
ghost use Rattle.sel_forest.specs.Laws.{PlainTreeIsOne, ForestIsOne, ForestFaultIsOne, NotForestAndFault, SomeForestOrFault, SpelledIsValid, PrintedIsSpelled};

/// Nodes are the postorder of at most one tree.
pub fn plain_tree_is_one()
    ensures { PlainTreeIsOne }
{}

/// A text spells at most one forest under a grammar.
pub fn forest_is_one()
    ensures { ForestIsOne }
{}

/// A text has at most one first fault under a grammar.
pub fn forest_fault_is_one()
    ensures { ForestFaultIsOne }
{}

/// A text that spells a forest has no fault.
pub fn not_forest_and_fault()
    ensures { NotForestAndFault }
{}

/// A text spells a forest or has a fault, under each grammar within the limits.
pub fn some_forest_or_fault()
    ensures { SomeForestOrFault }
{}

/// Each forest that a text spells is valid under the grammar.
pub fn spelled_is_valid()
    ensures { SpelledIsValid }
{}

/// The printed text of a valid forest spells that forest, where each operator of the grammar has a name
/// and no two have the same.
pub fn printed_is_spelled()
    ensures { PrintedIsSpelled }
{}
