//! The operators, nonterminals and rules that the items of a text have given so far.

ghost use Rattle.std.specs.Prelude.{◌≡◌, ℕ, ◌≤◌, List, [], ◌∷◌, ◌++◌, None, Some, OnOk, map};
ghost use Rattle.std.specs.Option.{option_map};
ghost use Rattle.std.specs.Str.Parse.{digits_value};
ghost use Rattle.sel_grammar_text.specs.Items as items;
ghost use Rattle.sel_grammar_text.specs.ItemFaults.{check};
ghost use Rattle.sel_grammar_text.specs.ItemNumbers.{IsNumber, IsExternal, HasNumbersInTail, HasExternalInTail};
ghost use Rattle.sel_grammar_text.specs.Names.{with_words, nonterminal_words, leaves};
ghost use Rattle.sel_grammar_text.specs.Tables.{Means, IsReady, IsReadyRule, IsPlaced, StandsRight, or_word, with_uses, operator_names, noted, rule_at};
ghost use Rattle.sel_grammar_text.specs.Words as words;
ghost use Rattle.sel_grammar_text.specs.Words.{view_word, view_rule};

use crate::arity::note_uses;
use crate::meaning::rule_of;
use crate::names::{add_leaves, add_name, add_use, add_uses};
use crate::values::value_of;
use crate::words::{Item, RuleItem, TextWord};
use sel_base::{Name, NoMemory};
use sel_grammar::limits::GREATEST_EXTERNAL;
use sel_grammar::{Operator, Rule};
use std::alloc::Global;

/// What the items so far have given. `lefts` has the left name of each rule, and `uses` where a name
/// first stands behind `%start` or as a nonterminal in a pattern.
#[derive(Drop)]
pub struct Tables<'t> {
    pub start: Option<TextWord<'t>>,
    pub operators: Vec<Operator>,
    pub nonterminals: Vec<Name>,
    pub rules: Vec<Rule>,
    pub lefts: Vec<TextWord<'t>>,
    pub uses: Vec<TextWord<'t>>,
}

impl<'t> Tables<'t> {
    /// No items.
    pub fn new(alloc: Global) -> Tables<'t>
        ensures { (bytes : List ℕ) → Means bytes [] result }
    {
        Tables {
            start: None,
            operators: Vec::new(alloc),
            nonterminals: Vec::new(alloc),
            rules: Vec::new(alloc),
            lefts: Vec::new(alloc),
            uses: Vec::new(alloc),
        }
    }

    /// Adds the name behind `%start`.
    fn add_start(&mut self, word: TextWord<'t>) -> Result<(), NoMemory>
        ensures start { OnOk result (option_map view_word self.new.start ≡ or_word (option_map view_word self.old.start) (Some (view_word word.entry))) }
        ensures uses { OnOk result (map view_word self.new.uses.items ≡ with_uses (map view_word self.old.uses.items) (view_word word.entry ∷ [])) }
        ensures rest { OnOk result (self.new ≡ record self.old { start = self.new.start; uses = self.new.uses }) }
    {
        add_use(&mut self.uses, word)?;
        if self.start.is_none() {
            self.start = Some(word);
        }
        Ok(())
    }

    /// Adds an operator, which no rule uses yet.
    fn add_operator(
        &mut self,
        alloc: Global,
        name: &TextWord<'t>,
        number: &TextWord<'t>,
    ) -> Result<(), NoMemory>
        requires digits { IsNumber (view_word number.now) }
        requires fits { IsExternal (view_word number.now) }
        ensures operators { OnOk result (self.new.operators.items ≡ self.old.operators.items ++ record { name = name.now.bytes.now; external = digits_value 10 number.now.bytes.now; arity = None } ∷ []) }
        ensures rest { OnOk result (self.new ≡ record self.old { operators = self.new.operators }) }
    {
        let kept = Name::from_vec(Vec::from_slice(alloc, name.bytes)?);
        self.operators.push(Operator {
            name: kept,
            external: value_of(number, GREATEST_EXTERNAL),
            arity: None,
        })?;
        Ok(())
    }

    /// Adds a rule, whose left name stands at the line and the column.
    fn add_rule(
        &mut self,
        alloc: Global,
        rule: &RuleItem<'t>,
        line: u32,
        column: u32,
    ) -> Result<(), NoMemory>
        requires room { IsReadyRule self.old (view_rule rule.now) }
        requires digits { HasNumbersInTail (view_rule rule.now).tail }
        requires external { HasExternalInTail (view_rule rule.now).tail }
        ensures start { OnOk result (self.new.start ≡ self.old.start) }
        ensures operators { OnOk result (self.new.operators.items ≡ noted (view_rule rule.now).pattern self.old.operators.items) }
        ensures nonterminals { OnOk result (self.new.nonterminals.items ≡ with_words self.old.nonterminals.items (nonterminal_words (operator_names self.old.operators.items) (view_rule rule.now))) }
        ensures rules { OnOk result (self.new.rules.items ≡ self.old.rules.items ++ rule_at line column (operator_names self.old.operators.items) self.new.nonterminals.items (view_rule rule.now) ∷ []) }
        ensures lefts { OnOk result (map view_word self.new.lefts.items ≡ map view_word self.old.lefts.items ++ (view_rule rule.now).left ∷ []) }
        ensures uses { OnOk result (map view_word self.new.uses.items ≡ with_uses (map view_word self.old.uses.items) (leaves (operator_names self.old.operators.items) (view_rule rule.now).pattern)) }
    {
        let pattern = rule.pattern.as_slice();
        add_name(alloc, &mut self.nonterminals, &rule.left)?;
        add_leaves(
            alloc,
            &mut self.nonterminals,
            self.operators.as_slice(),
            pattern,
        )?;
        add_uses(&mut self.uses, self.operators.as_slice(), pattern)?;
        let said = rule_of(
            alloc,
            self.operators.as_slice(),
            self.nonterminals.as_slice(),
            rule,
            line,
            column,
        )?;
        self.rules.push(said)?;
        self.lefts.push(rule.left)?;
        note_uses(self.operators.as_mut_slice(), pattern);
        Ok(())
    }

    /// Adds an item that passed its checks. A rule's left name stands at the line and the column.
    pub fn add(
        &mut self,
        alloc: Global,
        item: &Item<'t>,
        line: u32,
        column: u32,
    ) -> Result<(), NoMemory>
        requires { IsReady self.old (words.view_item item.now) }
        ensures { OnOk result ((bytes : List ℕ) (before : List items.Item) → Means bytes before self.old → check before (words.view_item item.now) ≡ None
            → StandsRight before (words.view_item item.now) → IsPlaced bytes line column (words.view_item item.now) → Means bytes (before ++ words.view_item item.now ∷ []) self.new) }
    {
        match item {
            Item::Start(word) => self.add_start(*word),
            Item::Entry(name, number) => self.add_operator(alloc, name, number),
            Item::Code => Ok(()),
            Item::Percents(_) => Ok(()),
            Item::Rule(rule) => self.add_rule(alloc, rule, line, column),
        }
    }
}
