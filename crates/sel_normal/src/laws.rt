//! Laws of the definitions. The functions do nothing: their contracts say them.
ghost use Rattle.sel_normal.specs.Laws.{AcceptedOrFault, EachHasNormalMatch, EachHasUserMatch, LawfulFormsStand, NormalFaultIsOne, NotAcceptedAndFault};

/// The normal form of a grammar has at most one fault. None is both accepted and at fault, and that of
/// each lawful grammar is one of the two.
pub fn normal_or_fault()
    ensures fault_is_one { NormalFaultIsOne }
    ensures not_both { NotAcceptedAndFault }
    ensures some { AcceptedOrFault }
{}

/// A derivation of a tree under a grammar and one in its normal form belong together, one for one, where
/// they begin with the same nonterminal of the user: each has exactly one of the other kind with the same
/// cost and, the rules of helpers left out, the same list.
pub fn derivations_match()
    ensures normal { EachHasNormalMatch }
    ensures user { EachHasUserMatch }
{}

/// Whoever reads a rule of an accepted grammar's normal form finds numbers that exist, and few of them.
pub fn lawful_forms_stand()
    ensures { LawfulFormsStand }
{}
