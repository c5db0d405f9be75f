// A normal form, and what it tells.
ghost use Rattle.std.specs.Prelude.{◌≡◌, ◌+◌, ◌≤◌, Some, None, length, IfOk, IfErr, nat_le, if◌then◌else◌};
ghost use Rattle.sel_grammar.specs.Lawful.{IsLawful};
ghost use Rattle.sel_grammar.specs.Limits.{most_rules, most_normal_nonterminals};
ghost use Rattle.sel_normal.specs.Forms.{IsFormOf};
ghost use Rattle.sel_normal.specs.NormalFaults.{IsAccepted, NormalRefusedFor};
ghost use Rattle.sel_normal.specs.NormalForms.{normal_at};
ghost use Rattle.sel_normal.specs.Standing.{IsRuleWithin, IsStanding};

use crate::check::{check_cycles, count_nonterminals};
use crate::form::{classes_of, cut_rules, push_helper_rules};
use crate::reach::free_leads;
use sel_grammar::{Grammar, GrammarRefusal, RuleCost};
use sel_range::Classes;
use std::alloc::Global;
use std::marker::Model;

/// The right side of a normal rule: a normal nonterminal, or an operator over the normal
/// nonterminals of its kids. A rule for one kid has it as `first`. `test` is the number of the
/// rule's range among the tests of the normal form, from 0.
#[derive(Clone, Copy, Debug, PartialEq, Eq)]
pub enum Body {
    Chain(u16),
    Operator {
        operator: u8,
        first: Option<u16>,
        second: Option<u16>,
        test: Option<u16>,
    },
}

/// A rule of a normal form. `left` is a normal nonterminal.
#[derive(Clone, Copy, Debug, PartialEq, Eq)]
pub struct NormalRule {
    pub left: u16,
    pub cost: RuleCost,
    pub body: Body,
}

/// The normal form of a grammar. The grammar's nonterminals and rules keep their numbers, and behind
/// them stand a helper nonterminal and its rule, which costs nothing, for each operator below the root
/// of a pattern, in the order of rules and within a pattern in preorder.
#[derive(Debug, Drop)]
pub struct Normal {
    nonterminals: u16,
    user_rules: u16,
    rules: Vec<NormalRule>,
    classes: Classes,
}

impl Model for Normal {
    ghost use Rattle.sel_normal.specs.NormalForms.{NormalForm};

    ghost Value = { NormalForm };

    ghost view = { λ n. record {
      nonterminals = n.nonterminals;
      user_rules = n.user_rules;
      rules = n.rules.items;
      tests = n.classes;
    } };

    ghost use Rattle.sel_normal.specs.Standing.{IsStanding};

    ghost invariant = { λ n. IsStanding (record {
      nonterminals = n.nonterminals;
      user_rules = n.user_rules;
      rules = n.rules.items;
      tests = n.classes;
    }) };
}

impl Normal {
    /// The normal form of the grammar. It is refused, at the left name of a rule, where there are more than
    /// 512 normal nonterminals (kind 13, at the first rule whose helpers are too many), and else where chain
    /// rules that cost nothing lead in a cycle (kind 14, at the first rule that stands on one).
    pub fn of(alloc: Global, grammar: &Grammar) -> Result<Normal, GrammarRefusal>
        requires lawful { IsLawful grammar.now }
        ensures form { IfOk result (λ normal. IsFormOf grammar.now normal) }
        ensures accepted { IfOk result (λ _. IsAccepted grammar.now) }
        ensures fault { IfErr result (λ refusal. NormalRefusedFor grammar.now refusal) }
    {
        let nonterminals = count_nonterminals(grammar)?;
        let leads = free_leads(alloc, grammar)?;
        check_cycles(grammar, leads.as_slice())?;
        let mut rules = cut_rules(alloc, grammar)?;
        push_helper_rules(grammar, &mut rules)?;
        let classes = classes_of(alloc, grammar)?;
        Ok(Normal {
            nonterminals,
            user_rules: grammar.rules.len() as u16,
            rules,
            classes,
        })
    }

    /// How many normal nonterminals there are.
    pub fn nonterminals(&self) -> u16
        ensures is { result ≡ self.now.nonterminals }
        ensures few { result ≤ most_normal_nonterminals }
    {
        self.nonterminals
    }

    /// What each normal form keeps: whoever reads a rule finds numbers that exist, and few of them.
    pub fn is_standing(&self)
        ensures { IsStanding self.now }
    {
        let _ = &self.nonterminals;
    }

    /// How many normal rules there are.
    pub fn rules(&self) -> u16
        ensures is { result ≡ length self.now.rules }
        ensures few { result ≤ most_rules + most_normal_nonterminals }
        ensures users { self.now.user_rules ≤ result }
    {
        self.rules.len() as u16
    }

    /// The number of the user's rule that the normal rule of a number, from 1, was cut from: its own. None
    /// for a helper's rule.
    pub fn user_rule(&self, rule: u16) -> Option<u16>
        requires from { 1 ≤ rule }
        requires to { rule ≤ length self.now.rules }
        ensures { result ≡ (if nat_le rule self.now.user_rules then Some rule else None) }
    {
        if rule <= self.user_rules {
            Some(rule)
        } else {
            None
        }
    }

    /// The normal rule of a number, from 1.
    pub fn rule(&self, rule: u16) -> NormalRule
        requires from { 1 ≤ rule }
        requires to { rule ≤ length self.now.rules }
        ensures is { normal_at self.now rule ≡ Some result }
        ensures within { IsRuleWithin self.now result }
    {
        self.rules[rule as usize - 1]
    }

    /// The classes of the ranges that the rules test.
    pub fn classes(&self) -> &Classes
        ensures { result.now ≡ self.now.tests }
    {
        &self.classes
    }
}
