//! A reader of certificates, line by line.

ghost use Rattle.std.specs.Prelude.{◌≡◌, ◌∷◌, ◌++◌, [], ◌≤◌, ◌<◌, ◌+◌, List, All, ◌^◌, IfErr, IfOk, IfSome, OnOk, length, map};
ghost use Rattle.sel_forest.specs.declared.forest.Node.{Node as AnyNode};
ghost use Rattle.sel_check.specs.CertificateTexts.{row_line, cover_line, tree_line, certificate_lines};
ghost use Rattle.sel_check.specs.Checks.{IsFor, text_fault};
ghost use Rattle.sel_check.specs.declared.refusal.CheckRefusal.TheVariants as refusal;
ghost use Rattle.sel_check.specs.LineReading.{Took, IsTaken, IsRefusedBehind};
ghost use Rattle.sel_check.specs.WantedLines.{Wanted, Title, Row, Rules, IsRow, AreRules, wanted_of_tree};

use crate::certificate::TreeCertificate;
use crate::entries::{is_title, row, rules};
use crate::kinds::TEXT;
use crate::parts::first_part;
use crate::refusal::{CheckFault, CheckRefusal};
use sel_base::{List, Pair};
use sel_forest::{Node, Tree};
use sel_grammar::Grammar;
use std::alloc::Global;

/// What is left of a text, and how many lines were taken from it.
#[derive(Debug, Drop)]
pub struct Lines<'a> {
    pub rest: &'a [u8],
    pub taken: u32,
}

fn wrong(line: u32) -> CheckRefusal
    ensures { result ≡ refusal.Fault (record { kind = text_fault; line = line }) }
{
    CheckRefusal::Fault(CheckFault { kind: TEXT, line })
}

impl<'a> Lines<'a> {
    /// Takes the next line, without its line feed.
    fn take(&mut self) -> Result<&'a [u8], CheckRefusal>
        requires room { self.old.taken + length self.old.rest.now < 4294967295 }
        ensures line { IfOk result (λ line. IsTaken self.old self.new line.now) }
        ensures fault { IfErr result (λ refusal. (w : Wanted) (others : List Wanted) → IsRefusedBehind self.old (w ∷ others) refusal) }
    {
        let cut = first_part(self.rest, b'\n');
        let Some(behind) = cut.rest else {
            return Err(wrong(self.taken + 1));
        };
        self.rest = behind;
        self.taken += 1;
        Ok(cut.part)
    }

    /// Takes the first line of the tree with this number.
    fn title(&mut self, tree: u32) -> Result<(), CheckRefusal>
        requires room { self.old.taken + length self.old.rest.now < 4294967295 }
        ensures line { OnOk result (Took self.old self.new (tree_line tree ∷ [])) }
        ensures fault { IfErr result (λ refusal. (others : List Wanted) → IsRefusedBehind self.old (Title tree ∷ others) refusal) }
    {
        let line = match self.take() {
            Ok(line) => line,
            Err(refusal) => return Err(refusal),
        };
        if is_title(line, tree) {
            Ok(())
        } else {
            Err(wrong(self.taken))
        }
    }

    /// Takes the line of a node.
    fn row(&mut self, alloc: Global, width: usize) -> Result<List<Option<Pair>>, CheckRefusal>
        requires room { self.old.taken + length self.old.rest.now < 4294967295 }
        requires some { 0 < width }
        ensures line { IfOk result (λ row. IsRow width row × Took self.old self.new (row_line row ∷ [])) }
        ensures fault { IfErr result (λ refusal. (others : List Wanted) → IsRefusedBehind self.old (Row width ∷ others) refusal) }
    {
        let line = match self.take() {
            Ok(line) => line,
            Err(refusal) => return Err(refusal),
        };
        match row(alloc, line, width)? {
            Some(row) => Ok(row),
            None => Err(wrong(self.taken)),
        }
    }

    /// Takes a line for each node.
    fn rows(
        &mut self,
        alloc: Global,
        width: usize,
        nodes: &[Node],
    ) -> Result<List<List<Option<Pair>>>, CheckRefusal>
        requires room { self.old.taken + length self.old.rest.now < 4294967295 }
        requires some { 0 < width }
        ensures count { IfOk result (λ rows. length rows ≡ length nodes.now) }
        ensures lines { IfOk result (λ rows. All (IsRow width) rows × Took self.old self.new (map row_line rows)) }
        ensures fault { IfErr result (λ refusal. (others : List Wanted) → IsRefusedBehind self.old (map (λ (node : AnyNode). Row width) nodes.now ++ others) refusal) }
    {
        let mut rows = List::new(alloc);
        'nodes: for _node in nodes {
            let row = match self.row(alloc, width) {
                Ok(row) => row,
                Err(refusal) => return Err(refusal),
            };
            rows.push(row)?;
        }
        Ok(rows)
    }

    /// Takes the line of the rules.
    fn rules(&mut self, alloc: Global) -> Result<Option<List<u16>>, CheckRefusal>
        requires room { self.old.taken + length self.old.rest.now < 4294967295 }
        ensures line { IfOk result (λ rules. AreRules rules × Took self.old self.new (cover_line rules ∷ [])) }
        ensures few { IfOk result (λ rules. IfSome rules (λ numbers. length numbers < 2 ^ 32)) }
        ensures fault { IfErr result (λ refusal. (others : List Wanted) → IsRefusedBehind self.old (Rules ∷ others) refusal) }
    {
        let last = match self.take() {
            Ok(last) => last,
            Err(refusal) => return Err(refusal),
        };
        match rules(alloc, last)? {
            Some(rules) => Ok(rules),
            None => Err(wrong(self.taken)),
        }
    }

    /// Takes the certificate of the tree, which has this number.
    pub fn certificate(
        &mut self,
        alloc: Global,
        grammar: &Grammar,
        tree: &Tree,
        number: u32,
    ) -> Result<TreeCertificate, CheckRefusal>
        requires room { self.old.taken + length self.old.rest.now < 4294967295 }
        requires some { 0 < length grammar.now.nonterminals }
        ensures lines { IfOk result (λ c. Took self.old self.new (certificate_lines number c)) }
        ensures form { IfOk result (IsFor grammar.now tree.now) }
        ensures few { IfOk result (λ c. IfSome c.rules (λ numbers. length numbers < 2 ^ 32)) }
        ensures fault { IfErr result (λ refusal. (others : List Wanted) → IsRefusedBehind self.old (wanted_of_tree grammar.now number tree.now ++ others) refusal) }
    {
        match self.title(number) {
            Ok(()) => {}
            Err(refusal) => return Err(refusal),
        }
        let costs = match self.rows(alloc, grammar.nonterminals.len(), tree.nodes.as_slice()) {
            Ok(costs) => costs,
            Err(refusal) => return Err(refusal),
        };
        let rules = match self.rules(alloc) {
            Ok(rules) => rules,
            Err(refusal) => return Err(refusal),
        };
        Ok(TreeCertificate { costs, rules })
    }
}
