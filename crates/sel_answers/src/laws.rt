//! A law of what is told of a table. The function does nothing: its contract says the law.
ghost use Rattle.sel_answers.specs.Laws.{TablesAreTold};

/// The text of a table over which each of the trees was answered tells how many item sets and keys their tabled
/// nodes have, or the marks.
pub fn tables_are_told()
    ensures { TablesAreTold }
{}
