//! Grammars: operators, nonterminals, and rules with patterns.
#![tactic(auto)]

mod emission;
mod grammar;
pub mod laws;
pub mod limits;
pub mod names;
mod refusal;

pub use emission::Emitted;
pub use grammar::{Attribute, Grammar, Operator, Part, Pattern, Rule, RuleCost, Template};
pub use refusal::{GrammarFault, GrammarRefusal};
pub use sel_base::{Pair, Range};
