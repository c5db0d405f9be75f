//! Laws of loading. The functions do nothing: their contracts say them.
ghost use Rattle.sel_table.specs.LoadLaws.{SpelledIsOne, LoadFaultIsOne, LoadedHasNoFault, CompleteIsLoaded};

/// A text has one answer: it spells a lawful table, and then no other, or it has a first fault, and then no
/// other.
pub fn answers_are_one()
    ensures table { SpelledIsOne }
    ensures fault { LoadFaultIsOne }
    ensures never_both { LoadedHasNoFault }
{}

/// What is printed of a complete table is loaded as this table.
pub fn complete_is_loaded()
    ensures { CompleteIsLoaded }
{}
