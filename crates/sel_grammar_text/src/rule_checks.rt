//! What the checks of a rule ask of its names.

ghost use Rattle.std.specs.Prelude.{◌≡◌, ◌≤◌, ◌<◌, ℕ, List, ◌++◌, ◌∷◌, not, map, length, option_map};
ghost use Rattle.sel_grammar_text.specs.Checks as checks;
ghost use Rattle.sel_grammar_text.specs.Items as items;
ghost use Rattle.sel_grammar_text.specs.Meaning.{operators_of};
ghost use Rattle.sel_grammar_text.specs.Names as spec;
ghost use Rattle.sel_grammar_text.specs.Tables.{operator_names, arity_in, or_count};
ghost use Rattle.sel_grammar_text.specs.Words.{view_named, view_word, view_rule};

use crate::names::{is_leaf, is_name, is_operator};
use crate::words::{Named, RuleItem};
use sel_base::Name;
use sel_grammar::Operator;
use sel_grammar::limits::{MOST_KIDS, MOST_NONTERMINALS};

/// Whether the pattern is one operator without kids.
pub fn is_nullary(operators: &[Operator], pattern: &[Named<'_>]) -> bool
    ensures { result ≡ checks.is_nullary (operator_names operators.now) (map view_named pattern.now) }
{
    match pattern {
        [named] => is_operator(operators, named.word.bytes) && named.kids == 0,
        _ => false,
    }
}

/// How many nonterminals without kids stand in the pattern.
pub fn leaf_count(operators: &[Operator], pattern: &[Named<'_>]) -> usize
    ensures { result ≡ length (spec.leaves (operator_names operators.now) (map view_named pattern.now)) }
{
    let mut count = 0;
    let mut rest = pattern;
    'names: while let [named, behind @ ..] = rest {
        if is_leaf(operators, named) {
            count += 1;
        }
        rest = behind;
    }
    count
}

/// Whether the name is a nonterminal without kids of the pattern.
fn is_leaf_name(operators: &[Operator], pattern: &[Named<'_>], name: &[u8]) -> bool
    ensures { result ≡ spec.is_among (map (λ w. w.bytes) (spec.leaves (operator_names operators.now) (map view_named pattern.now))) name.now }
{
    let mut rest = pattern;
    'names: while let [named, behind @ ..] = rest {
        if is_leaf(operators, named) && named.word.bytes == name {
            return true;
        }
        rest = behind;
    }
    false
}

/// How many kids the name has where it first stands.
fn first_use(pattern: &[Named<'_>], name: &[u8]) -> Option<usize>
    ensures { result ≡ spec.first_use (map view_named pattern.now) name.now }
{
    let mut rest = pattern;
    'names: while let [named, behind @ ..] = rest {
        if named.word.bytes == name {
            return Some(named.kids);
        }
        rest = behind;
    }
    None
}

/// Whether the name has another number of kids than at an earlier use.
fn differs(earlier: Option<usize>, kids: usize) -> bool
    ensures { result ≡ checks.differs earlier kids }
{
    match earlier {
        None => false,
        Some(first) => first != kids,
    }
}

/// How many kids the operator with the name has by its first use, where there is such an operator.
fn arity_of(operators: &[Operator], name: &[u8]) -> Option<Option<u8>>
    ensures { result ≡ arity_in operators.now name.now }
{
    let mut rest = operators;
    'operators: while let [operator, behind @ ..] = rest {
        if operator.name.as_slice() == name {
            return Some(operator.arity);
        }
        rest = behind;
    }
    None
}

/// How many kids the name has at its first use, before the pattern or in its part.
fn first_kids(known: Option<u8>, earlier: &[Named<'_>], name: &[u8]) -> Option<usize>
    ensures { result ≡ or_count known (spec.first_use (map view_named earlier.now) name.now) }
{
    match known {
        Some(kids) => Some(usize::from(kids)),
        None => first_use(earlier, name),
    }
}

/// Whether a nonterminal has kids, or an operator has too many or another number than at its first
/// use, of which the operators know those before the pattern.
fn has_wrong_kids(operators: &[Operator], earlier: &[Named<'_>], named: &Named<'_>) -> bool
    ensures { (us : List (items.Word × ℕ)) (all : List items.Item) → operators.now ≡ operators_of us all → result ≡ checks.has_wrong_kids (spec.operators all) (us ++ map view_named earlier.now) (view_named named.now) }
{
    let Some(known) = arity_of(operators, named.word.bytes) else {
        return named.kids > 0;
    };
    if named.kids > MOST_KIDS {
        return true;
    }
    differs(first_kids(known, earlier, named.word.bytes), named.kids)
}

/// The first name of the pattern that has a wrong number of kids.
pub fn wrong_kids_at(operators: &[Operator], pattern: &[Named<'_>]) -> Option<usize>
    ensures { (us : List (items.Word × ℕ)) (all : List items.Item) → operators.now ≡ operators_of us all → result ≡ checks.first_wrong_kids (spec.operators all) us (map view_named pattern.now) }
{
    'names: for (i, named) in pattern.iter().enumerate() {
        if has_wrong_kids(operators, &pattern[..i], named) {
            return Some(named.word.at);
        }
    }
    None
}

/// Whether the nonterminal is neither known, nor the left name, nor an earlier one of the pattern.
fn is_new(
    operators: &[Operator],
    nonterminals: &[Name],
    left: &[u8],
    earlier: &[Named<'_>],
    name: &[u8],
) -> bool
    ensures { (at : ℕ) → result ≡ not (spec.is_among (spec.with_words nonterminals.now (items.word at left.now ∷ spec.leaves (operator_names operators.now) (map view_named earlier.now))) name.now) }
{
    if is_name(nonterminals, name) {
        return false;
    }
    if left == name {
        return false;
    }
    !is_leaf_name(operators, earlier, name)
}

/// The first nonterminal of the rule that is new where there are as many as there may be.
pub fn past_most(
    operators: &[Operator],
    nonterminals: &[Name],
    rule: &RuleItem<'_>,
) -> Option<usize>
    ensures { result ≡ checks.past_most nonterminals.now (spec.nonterminal_words (operator_names operators.now) (view_rule rule.now)) }
{
    let mut count = nonterminals.len();
    if !is_name(nonterminals, rule.left.bytes) {
        if count >= MOST_NONTERMINALS {
            return Some(rule.left.at);
        }
        count += 1;
    }
    let pattern = rule.pattern.as_slice();
    'names: for (i, named) in pattern.iter().enumerate() {
        if !is_leaf(operators, named) {
            continue;
        }
        let earlier = &pattern[..i];
        if !is_new(
            operators,
            nonterminals,
            rule.left.bytes,
            earlier,
            named.word.bytes,
        ) {
            continue;
        }
        if count >= MOST_NONTERMINALS {
            return Some(named.word.at);
        }
        count += 1;
    }
    None
}
