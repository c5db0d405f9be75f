//! A law of printed grammars. The function does nothing: its contract says it.
ghost use Rattle.sel_grammar_print.specs.PrintedLaws.{PrintedIsRead};

/// What is printed of a grammar that a text spells is a text of the same grammar, but for the places
/// of its rules.
pub fn printed_is_read()
    ensures { PrintedIsRead }
{}
