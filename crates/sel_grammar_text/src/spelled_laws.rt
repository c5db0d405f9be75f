//! Laws of the names and the templates in a grammar that a text spells. The functions do nothing: their contracts
//! say them.
ghost use Rattle.sel_grammar_text.specs.SpelledLaws.{SpelledHasNames, SpelledHasNonterminalNames, TemplatesAreParts};

/// The operators of a grammar that a text spells have names, and no two of them have the same.
pub fn spelled_has_names()
    ensures { SpelledHasNames }
{}

/// The nonterminals of a grammar that a text spells have names, no two of them have the same, and none
/// has that of an operator.
pub fn spelled_has_nonterminal_names()
    ensures { SpelledHasNonterminalNames }
{}

/// No text in a template of a grammar that a text spells is empty or stands beside another one, and
/// kids are named by one digit.
pub fn templates_are_parts()
    ensures { TemplatesAreParts }
{}
