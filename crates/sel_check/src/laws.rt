//! Laws of certificates. The functions do nothing: their contracts say them.
ghost use Rattle.sel_check.specs.Laws.{ProofIsLeast, LeastIsBest, BestIsProved};
ghost use Rattle.sel_check.specs.CheckLaws.{CertifiedIsProved, ProvedCostsAreOne, CheckFaultIsOne, NoFaultIsProved};

/// What a certificate proves is the least cost of the tree's derivations, or that there is none. That
/// follows from the bounds and the listed derivation alone.
pub fn proof_is_least()
    ensures least { ProofIsLeast }
    ensures best { LeastIsBest }
{}

/// The costs of best derivations, with the list of the best one from the start symbol, are a proof.
pub fn best_is_proved()
    ensures { BestIsProved }
{}

/// A text of certificates has one answer: it proves costs, and then no others, or it has a first fault,
/// and then no other.
pub fn answers_are_one()
    ensures costs { ProvedCostsAreOne }
    ensures fault { CheckFaultIsOne }
    ensures never_both { NoFaultIsProved }
{}

/// The text of what `certify` gives of each tree of a forest proves costs.
pub fn certified_is_proved()
    ensures { CertifiedIsProved }
{}
