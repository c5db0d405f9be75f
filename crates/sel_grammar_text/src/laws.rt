//! Laws of the definitions. The functions do nothing: their contracts say them.
ghost use Rattle.sel_grammar_text.specs.Laws.{GrammarIsOne, GrammarFaultIsOne, NotGrammarAndFault, SomeGrammarOrFault, SpelledIsLawful, SpelledIsComplete, RuleIsCut, RulesSayForms, StateGoesOn, NoStateStops, EndIsText, TextIsEnd};

/// A text spells at most one grammar, and has at most one fault. No text has both, and each has one of them.
pub fn grammar_or_fault()
    ensures grammar_is_one { GrammarIsOne }
    ensures fault_is_one { GrammarFaultIsOne }
    ensures not_both { NotGrammarAndFault }
    ensures some { SomeGrammarOrFault }
{}

/// Each grammar that a text spells is within the limits, and each of its rules is one of the grammar:
/// its names are the grammar's, operators have as many kids as they take, and a range stands only
/// with one operator without kids.
pub fn spelled_is_lawful()
    ensures { SpelledIsLawful }
{}

/// Each grammar that a text spells has a rule, each of its nonterminals is the left side of one, and its
/// templates name only kids that there are, and their result only in instructions, and don't begin with
/// `?` or `#`.
pub fn spelled_is_complete()
    ensures { SpelledIsComplete }
{}

/// A rule of a text says what its form has: the left name, the names of the pattern in preorder, each
/// with how many kids it has, and the tail.
pub fn rules_say_their_forms()
    ensures cut { RuleIsCut }
    ensures whole { RulesSayForms }
{}

/// There is a state behind some tokens exactly where a text of the form goes on with them, and it is
/// the end exactly where they are a whole text.
pub fn states_follow_the_form()
    ensures goes_on { StateGoesOn }
    ensures stops { NoStateStops }
    ensures ended { EndIsText }
    ensures whole { TextIsEnd }
{}
