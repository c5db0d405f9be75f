use sel_base::{List, Name, Range};
use sqlite_items::Boxed;

/// What a tree's node carries beside its operator.
#[derive(Debug, Drop)]
pub enum Attribute {
    Absent,
    Number(i64),
    Symbol(Name),
}

/// A name that `%term` declares. `external` is the number behind its `=`, and `arity` its number of
/// kids, which is open where no rule uses it.
#[derive(Debug, Drop)]
pub struct Operator {
    pub name: Name,
    pub external: u32,
    pub arity: Option<u8>,
}

/// A nonterminal by its number, or an operator by its number over a pattern for each kid.
#[derive(Debug, Drop)]
pub enum Pattern {
    Leaf(u16),
    Nullary(u8),
    Unary(u8, Boxed<Pattern>),
    Binary(u8, Boxed<Pattern>, Boxed<Pattern>),
}

/// A piece of a template: text, a kid's value (`%0` to `%9`), the attribute (`%a`), or the result (`%c`).
#[derive(Debug, Drop)]
pub enum Part {
    Text(Name),
    Kid(u8),
    Attribute,
    Temp,
}

/// What a rule writes (after lburg). No `Text` part is empty, and no two stand side by side.
#[derive(Debug, Drop)]
pub struct Template {
    pub parts: List<Part>,
}

/// What a rule costs: the first number decides, and the second breaks its ties.
#[derive(Clone, Copy, Debug, PartialEq, Eq)]
pub struct RuleCost {
    pub first: u16,
    pub second: u16,
}

/// `left: pattern`, with what it writes and costs (BURG manual, lburg). A rule with a range (after
/// lcc's range costs) fits only where the root's attribute is a number in it. `external` is the
/// number that a BURG rule gives itself, and `line` and `column` are the place of the left name.
#[derive(Debug, Drop)]
pub struct Rule {
    pub left: u16,
    pub pattern: Pattern,
    pub template: Template,
    pub cost: RuleCost,
    pub range: Option<Range>,
    pub external: Option<u32>,
    pub line: u32,
    pub column: u32,
}

/// A tree grammar. Operators are numbered from 0 in the order in which they are declared,
/// nonterminals from 0 in the order in which rules first name them, and a rule's number is its place
/// in `rules` plus 1. `start` is the nonterminal from which trees are derived.
#[derive(Debug, Drop)]
pub struct Grammar {
    pub start: u16,
    pub operators: List<Operator>,
    pub nonterminals: List<Name>,
    pub rules: List<Rule>,
}
