//! Laws of item sets. The functions do nothing: their contracts say them.
ghost use Rattle.sel_items.specs.Laws.{ItemsFollow, ItemsOfFollow, FollowsIsOne, ItemsAreOne, ItemsExist, ItemsAreKidSets, EntriesHaveRules, FittingSetsHaveWords, WordsSayEntries, ClosedAreAbsolute};

/// What follows from the item sets of a node's kids is the item set of the node.
pub fn items_follow()
    ensures { ItemsFollow }
{}

/// The other way round: the item set of a node follows from those of the node's kids.
pub fn items_of_follow()
    ensures { ItemsOfFollow }
{}

/// From a key follows one item set at most.
pub fn follows_is_one()
    ensures { FollowsIsOne }
{}

/// A tree has one item set at most.
pub fn items_are_one()
    ensures { ItemsAreOne }
{}

/// Each tree has an item set under a grammar that is lawful and accepted.
pub fn items_exist()
    ensures { ItemsExist }
{}

/// The item set of a tree of fewer than 2^16 nodes is one that its parent's may be evaluated from.
pub fn items_are_kid_sets()
    ensures { ItemsAreKidSets }
{}

/// The rule of an entry is one of the normal form's, with the entry's nonterminal on its left. So each
/// entry has a word where the costs of the item set fit words.
pub fn entries_have_rules()
    ensures rules { EntriesHaveRules }
    ensures words { FittingSetsHaveWords }
{}

/// A word of an entry that has one says the entry, so two entries with one word are one.
pub fn words_say_entries()
    ensures { WordsSayEntries }
{}

/// The least candidates without chain rules, closed under the chain rules, are the least candidates of
/// all: so what `close_chains` gives is what an item set is made from, before its least cost is taken
/// away.
pub fn closed_are_absolute()
    ensures { ClosedAreAbsolute }
{}
