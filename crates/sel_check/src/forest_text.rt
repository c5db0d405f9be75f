//! The certificates of a forest's trees, as text.

ghost use Rattle.std.specs.Prelude.{◌≡◌, ◌<◌, ◌+◌, ◌^◌, ◌&&◌, All, IfOk, is_some, length};
ghost use Rattle.sel_grammar.specs.Chains.{HasNoFreeCycle};
ghost use Rattle.sel_grammar.specs.Lawful.{IsLawful};
ghost use Rattle.sel_forest.specs.Postorder.{IsTree};
ghost use Rattle.sel_check.specs.CheckLaws.{IsCertifiedText};

use crate::certificate::{TreeCertificate, certify};
use crate::print::put_certificate;
use sel_base::NoMemory;
use sel_forest::Tree;
use sel_grammar::Grammar;
use std::alloc::Global;

/// The text of the certificates of trees, and whether each tree has a cover.
#[derive(Debug, Drop)]
pub struct CertifiedTrees {
    pub text: Vec<u8>,
    pub covered: bool,
}

fn is_covered_too(covered: bool, certificate: &TreeCertificate) -> bool
    ensures { result ≡ (covered && is_some certificate.now.rules) }
{
    covered && certificate.rules.is_some()
}

/// What `certify` gives of each of the trees, as one text, the trees being numbered from this number on.
/// A forest's text can be made so in pieces.
pub fn certify_trees(
    alloc: Global,
    grammar: &Grammar,
    trees: &[Tree],
    number: u32,
) -> Result<CertifiedTrees, NoMemory>
    requires trees { All IsTree trees.now }
    requires lawful { IsLawful grammar.now }
    requires free { HasNoFreeCycle grammar.now }
    requires room { number + length trees.now < 2 ^ 32 }
    ensures { IfOk result (λ made. IsCertifiedText grammar.now number trees.now made.text.items made.covered) }
{
    let mut text = Vec::new(alloc);
    let mut covered = true;
    let mut next = number;
    'trees: for tree in trees {
        let certificate = certify(alloc, grammar, tree)?;
        put_certificate(&mut text, &certificate, next)?;
        let both = is_covered_too(covered, &certificate);
        covered = both;
        next += 1;
    }
    Ok(CertifiedTrees { text, covered })
}
