//! Laws of the definitions. The functions do nothing: their contracts say them.
ghost use Rattle.sel_gen.specs.Laws.{MadeIsOne, MadeExists};

/// A grammar, a seed, a count of trees and their size make at most one forest.
pub fn made_is_one()
    ensures { MadeIsOne }
{}

/// A grammar within the limits, a seed, a count of trees and their size make a forest.
pub fn made_exists()
    ensures { MadeExists }
{}
