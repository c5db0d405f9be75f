//! What is known behind the last item: the last fault, or the grammar.

ghost use Rattle.std.specs.Prelude.{◌≡◌, ◌≤◌, ℕ, List, length, map, option_map};
ghost use Rattle.sel_grammar.specs.Limits.{most_nonterminals};
ghost use Rattle.sel_grammar_text.specs.Items as items;
ghost use Rattle.sel_grammar_text.specs.GrammarText as text;
ghost use Rattle.sel_grammar_text.specs.Meaning as meaning;
ghost use Rattle.sel_grammar_text.specs.Names.{number_of};
ghost use Rattle.sel_grammar_text.specs.Tables.{Means, start_number};
ghost use Rattle.sel_grammar_text.specs.Words.{view_word};

use crate::fault::Fault;
use crate::names::{is_word, name_number};
use crate::tables::Tables;
use crate::words::TextWord;
use sel_base::Name;
use sel_grammar::Grammar;
use sel_grammar::limits::{NO_RULE, NO_RULES};

/// The place of the first of the words that is none of the names.
fn first_absent(names: &[TextWord<'_>], words: &[TextWord<'_>]) -> Option<usize>
    ensures { result ≡ text.first_absent (map (λ w. w.bytes) (map view_word names.now)) (map view_word words.now) }
{
    let mut rest = words;
    'words: while let [word, behind @ ..] = rest {
        if !is_word(names, word.bytes) {
            return Some(word.at);
        }
        rest = behind;
    }
    None
}

/// The fault behind the last item, where the text ends at a place.
pub fn end_fault(tables: &Tables<'_>, at: usize) -> Option<Fault>
    ensures { (bytes : List ℕ) (all : List items.Item) → Means bytes all tables.now → result ≡ text.end_fault all at }
{
    if tables.rules.is_empty() {
        return Some(Fault { kind: NO_RULES, at });
    }
    match first_absent(tables.lefts.as_slice(), tables.uses.as_slice()) {
        None => None,
        Some(at) => Some(Fault { kind: NO_RULE, at }),
    }
}

/// The number of the start symbol.
fn start_of(start: &Option<TextWord<'_>>, nonterminals: &[Name]) -> u16
    requires { length nonterminals.now ≤ most_nonterminals }
    ensures { result ≡ start_number nonterminals.now (option_map view_word start.now) }
{
    match start {
        None => 0,
        Some(word) => name_number(nonterminals, word.bytes) as u16,
    }
}

/// The grammar that the items say.
pub fn grammar_of(tables: Tables<'_>) -> Grammar
    requires { length tables.nonterminals.items ≤ most_nonterminals }
    ensures { (bytes : List ℕ) (all : List items.Item) → Means bytes all tables.entry → result ≡ meaning.grammar_of bytes all }
{
    let start = start_of(&tables.start, tables.nonterminals.as_slice());
    Grammar {
        start,
        operators: sel_base::List::from_vec(tables.operators),
        nonterminals: sel_base::List::from_vec(tables.nonterminals),
        rules: sel_base::List::from_vec(tables.rules),
    }
}
