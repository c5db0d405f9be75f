//! The limits of a grammar, and the kinds of its faults.

/// How many operators a grammar may have.
pub const MOST_OPERATORS: usize = 255;

/// How many nonterminals a grammar may have.
pub const MOST_NONTERMINALS: usize = 64;

/// How many rules a grammar may have.
pub const MOST_RULES: usize = 1_023;

/// How many names a pattern may have, its root's among them.
pub const MOST_NAMES: usize = 63;

/// How many nonterminals the normal form of a grammar may have.
pub const MOST_NORMAL_NONTERMINALS: usize = 512;

/// How many kids an operator may have.
pub const MOST_KIDS: usize = 2;

/// The greatest number of a rule's cost.
pub const GREATEST_COST: u32 = 65_535;

/// The greatest number that `%term` gives an operator, and that a BURG rule gives itself.
pub const GREATEST_EXTERNAL: u32 = 4_294_967_295;

/// No text of the form goes on with this token, or the text ends too early.
pub const TOKEN: u8 = 1;

/// The text has no rule.
pub const NO_RULES: u8 = 2;

/// The operator is declared twice.
pub const DUPLICATE_TERM: u8 = 3;

/// A nonterminal has kids, or an operator has too many or another number of them than at its first use.
pub const ARITY: u8 = 4;

/// An operator stands on the left of a rule.
pub const TERM_ON_LEFT: u8 = 5;

/// A nonterminal is the left name of no rule.
pub const NO_RULE: u8 = 6;

/// What stands behind a template is no cost.
pub const COST_FORM: u8 = 7;

/// A cost or a bound is outside its limits.
pub const COST_LARGE: u8 = 8;

/// A template has a byte or an escape that it may not have, or isn't closed.
pub const TEMPLATE_FORM: u8 = 9;

/// A template names a kid that the pattern doesn't have.
pub const KID_NUMBER: u8 = 10;

/// A template that is no instruction names its result.
pub const RESULT_IN_FRAGMENT: u8 = 11;

/// A range stands where the pattern isn't one operator without kids.
pub const RANGE_PLACE: u8 = 12;

/// There are more operators, rules, nonterminals, names of a pattern or normal nonterminals than there may be.
pub const TOO_MANY: u8 = 13;

/// A cycle of chain rules costs nothing.
pub const ZERO_CYCLE: u8 = 14;
