//! Laws of the definitions. The functions do nothing: their contracts say them.
ghost use Rattle.sel_range.specs.Laws.{ClassDecides, PassesByClass, ClassesAreFew};

/// A test holds of a number's class exactly where it holds of the number.
pub fn class_decides()
    ensures { ClassDecides }
{}

/// All numbers of one class pass the same tests: whether a test holds rests on the class alone.
pub fn passes_by_class()
    ensures { PassesByClass }
{}

/// No class is above the greatest.
pub fn classes_are_few()
    ensures { ClassesAreFew }
{}
