//! Laws of texts with the names of registers. The functions do nothing: their contracts say them.
ghost use Rattle.sel_named.specs.Laws.{NamedIsOne, NamedExists, NamedIsRenamed, EnoughAreNamed};

/// At most one thing becomes of a text, and where there is a register something does.
pub fn named_is_one()
    ensures one { NamedIsOne }
    ensures some { NamedExists }
{}

/// Where there are enough registers, the text with names is the expansion's with the name of a register
/// for each temporary, and no two that are live on one line have the same.
pub fn named_is_renamed()
    ensures renamed { NamedIsRenamed }
    ensures enough { EnoughAreNamed }
{}
