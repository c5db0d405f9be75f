//! Laws of closed tables and their parts. The functions do nothing: their contracts say them.
ghost use Rattle.sel_closing.specs.Laws.{ForestsAreValid, FreshAskNothing, AskOfMore, PassesTellOfParts, AnswersAskOnly, AnswersTellMore, KeptStaysKept, PartsStillKeep, PartsKeepBoth, SnapshotsTell, PlainAreUntabled, PlainCountsUntabled, UntabledAddUp, StoppedCountsAddUp, PlainAddsUp, CountsInAnyOrder};

/// The trees of a valid forest are valid.
pub fn forests_are_valid()
    ensures { ForestsAreValid }
{}

/// New parts asked nothing, and what asked only of trees asked only of more trees.
pub fn parts_ask_only()
    ensures fresh { FreshAskNothing }
    ensures more { AskOfMore }
{}

/// A pass tells what the part that it is over tells.
pub fn passes_tell_of_parts()
    ensures { PassesTellOfParts }
{}

/// The answer of a tree asks only keys that may be asked of trees of which it is one, and a pass loses nothing by it.
pub fn answers_ask_only()
    ensures asked { AnswersAskOnly }
    ensures told { AnswersTellMore }
{}

/// What a part keeps of a tree is kept by one that tells no less, and so it is with all parts and all trees. What
/// keeps two lists of trees keeps both, one behind the other.
pub fn parts_keep()
    ensures one { KeptStaysKept }
    ensures all { PartsStillKeep }
    ensures both { PartsKeepBoth }
{}

/// A closed table tells of the trees what a table and its marks are to tell, where its parts asked only keys of these
/// trees, and all where the parts keep the trees.
pub fn snapshots_tell()
    ensures { SnapshotsTell }
{}

/// Where a pass isn't used up behind a labelling, exactly the nodes that aren't tabled have plain labels, and the count
/// of plain labels is that of these nodes.
pub fn plain_are_untabled()
    ensures each { PlainAreUntabled }
    ensures count { PlainCountsUntabled }
{}

/// No trees have no nodes, and the nodes of two lists of trees that aren't tabled add up, as counts that stop at the
/// greatest number of 64 bits do.
pub fn untabled_add_up()
    ensures exact { UntabledAddUp }
    ensures stopped { StoppedCountsAddUp }
{}

/// One more tree, behind which the pass isn't used up, adds its plain labels to the count of the nodes that aren't
/// tabled. The trees may be counted in the order of any draws in which each number comes once.
pub fn plain_counts_add_up()
    ensures more { PlainAddsUp }
    ensures order { CountsInAnyOrder }
{}
