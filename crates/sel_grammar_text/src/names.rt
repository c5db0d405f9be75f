//! Look-ups of names, which are few.

ghost use Rattle.std.specs.Prelude.{◌≡◌, ◌≤◌, ◌+◌, ◌==◌, ◌&&◌, ℕ, not, List, ◌++◌, ◌∷◌, [], length, map, OnOk, bytes_eq};
ghost use Rattle.std.specs.List.{position_or_len};
ghost use Rattle.sel_grammar_text.specs.Names as spec;
ghost use Rattle.sel_grammar_text.specs.Tables.{operator_names, with_uses};
ghost use Rattle.sel_grammar_text.specs.Words.{view_word, view_named};

use crate::words::{Named, TextWord};
use sel_base::{Name, NoMemory};
use sel_grammar::Operator;
use std::alloc::Global;

/// The place of the operator with the name, or how many operators there are.
pub fn operator_number(operators: &[Operator], name: &[u8]) -> usize
    ensures number { result ≡ position_or_len (λ operator. bytes_eq operator.name name.now) operators.now }
    ensures fits { result ≤ length operators.now }
{
    operators
        .iter()
        .take_while(|operator| operator.name.as_slice() != name)
        .count()
}

/// The place of the name, or how many names there are.
pub fn name_number(names: &[Name], name: &[u8]) -> usize
    ensures number { result ≡ spec.number_of names.now name.now }
    ensures fits { result ≤ length names.now }
{
    names
        .iter()
        .take_while(|other| other.as_slice() != name)
        .count()
}

pub fn is_operator(operators: &[Operator], name: &[u8]) -> bool
    ensures { result ≡ spec.is_among (operator_names operators.now) name.now }
{
    operator_number(operators, name) < operators.len()
}

pub fn is_name(names: &[Name], name: &[u8]) -> bool
    ensures { result ≡ spec.is_among names.now name.now }
{
    name_number(names, name) < names.len()
}

/// Whether the name stands among the words.
pub fn is_word(words: &[TextWord<'_>], name: &[u8]) -> bool
    ensures { result ≡ spec.is_among (map (λ w. w.bytes) (map view_word words.now)) name.now }
{
    let mut rest = words;
    'words: while let [word, behind @ ..] = rest {
        if word.bytes == name {
            return true;
        }
        rest = behind;
    }
    false
}

/// Whether a name of a pattern is no operator and has no kids.
pub fn is_leaf(operators: &[Operator], named: &Named<'_>) -> bool
    ensures { result ≡ ((named.now.kids == 0) && not (spec.is_among (operator_names operators.now) named.now.word.bytes.now)) }
{
    named.kids == 0 && !is_operator(operators, named.word.bytes)
}

/// Puts the name at the end where it is new.
pub fn add_name(alloc: Global, names: &mut Vec<Name>, word: &TextWord<'_>) -> Result<(), NoMemory>
    ensures { OnOk result (names.new.items ≡ spec.with_words names.old.items (view_word word.now ∷ [])) }
{
    if !is_name(names.as_slice(), word.bytes) {
        let kept = Name::from_vec(Vec::from_slice(alloc, word.bytes)?);
        names.push(kept)?;
    }
    Ok(())
}

/// Puts the nonterminals of a pattern at the end, each where it is new.
pub fn add_leaves(
    alloc: Global,
    names: &mut Vec<Name>,
    operators: &[Operator],
    pattern: &[Named<'_>],
) -> Result<(), NoMemory>
    ensures { OnOk result (names.new.items ≡ spec.with_words names.old.items (spec.leaves (operator_names operators.now) (map view_named pattern.now))) }
{
    let mut rest = pattern;
    'names: while let [named, behind @ ..] = rest {
        if is_leaf(operators, named) {
            add_name(alloc, names, &named.word)?;
        }
        rest = behind;
    }
    Ok(())
}

/// Puts a use at the end where its name is new.
pub fn add_use<'t>(uses: &mut Vec<TextWord<'t>>, word: TextWord<'t>) -> Result<(), NoMemory>
    ensures { OnOk result (map view_word uses.new.items ≡ with_uses (map view_word uses.old.items) (view_word word.entry ∷ [])) }
{
    if !is_word(uses.as_slice(), word.bytes) {
        uses.push(word)?;
    }
    Ok(())
}

/// Puts the uses of the nonterminals of a pattern at the end, each where its name is new.
pub fn add_uses<'t>(
    uses: &mut Vec<TextWord<'t>>,
    operators: &[Operator],
    pattern: &[Named<'t>],
) -> Result<(), NoMemory>
    ensures { OnOk result (map view_word uses.new.items ≡ with_uses (map view_word uses.old.items) (spec.leaves (operator_names operators.now) (map view_named pattern.now))) }
{
    let mut rest = pattern;
    'names: while let [named, behind @ ..] = rest {
        if is_leaf(operators, named) {
            add_use(uses, named.word)?;
        }
        rest = behind;
    }
    Ok(())
}
