//! Certificates printed as text.

ghost use Rattle.std.specs.Prelude.{◌≡◌, ◌++◌, ◌∷◌, [], ℕ, List, flat_map, map, codes, IfOk, OnOk};
ghost use Rattle.std.specs.Fmt.{decimal, signed_decimal};
ghost use Rattle.sel_check.specs.CertificateTexts.{entry_text, row_line, cover_line, tree_line, ended, certificate_text};

use crate::certificate::TreeCertificate;
use sel_base::text::{put, put_number, put_signed};
use sel_base::{List, NoMemory, Pair};
use std::alloc::Global;

fn put_entry(text: &mut Vec<u8>, entry: Option<Pair>) -> Result<(), NoMemory>
    ensures { OnOk result (text.new.items ≡ text.old.items ++ entry_text entry) }
{
    match entry {
        None => put(text, b"-")?,
        Some(cost) => {
            put_number(text, cost.first)?;
            put(text, b",")?;
            put_signed(text, cost.second)?;
        }
    }
    Ok(())
}

/// Puts entries behind the text, each behind a space.
fn put_entries(text: &mut Vec<u8>, entries: &[Option<Pair>]) -> Result<(), NoMemory>
    ensures { OnOk result (text.new.items ≡ text.old.items ++ flat_map (λ e. codes " " ++ entry_text e) entries.now) }
{
    for entry in entries {
        put(text, b" ")?;
        put_entry(text, *entry)?;
    }
    Ok(())
}

fn put_row(text: &mut Vec<u8>, row: &[Option<Pair>]) -> Result<(), NoMemory>
    ensures { OnOk result (text.new.items ≡ text.old.items ++ (row_line row.now ++ codes "\n")) }
{
    if let Some((first, rest)) = row.split_first() {
        put_entry(text, *first)?;
        put_entries(text, rest)?;
    }
    put(text, b"\n")
}

/// Puts rules' numbers behind the text, each behind a space.
fn put_numbers(text: &mut Vec<u8>, numbers: &[u16]) -> Result<(), NoMemory>
    ensures { OnOk result (text.new.items ≡ text.old.items ++ flat_map (λ r. codes " " ++ decimal r) numbers.now) }
{
    for number in numbers {
        put(text, b" ")?;
        put_number(text, *number as u64)?;
    }
    Ok(())
}

fn put_cover(text: &mut Vec<u8>, rules: &Option<List<u16>>) -> Result<(), NoMemory>
    ensures { OnOk result (text.new.items ≡ text.old.items ++ (cover_line rules.now ++ codes "\n")) }
{
    match rules {
        None => put(text, b"no cover")?,
        Some(rules) => {
            put(text, b"cover")?;
            put_numbers(text, rules.as_slice())?;
        }
    }
    put(text, b"\n")
}

fn put_rows(text: &mut Vec<u8>, rows: &[List<Option<Pair>>]) -> Result<(), NoMemory>
    ensures { OnOk result (text.new.items ≡ text.old.items ++ ended (map row_line rows.now)) }
{
    for row in rows {
        put_row(text, row.as_slice())?;
    }
    Ok(())
}

/// Puts the text of a tree's certificate behind the text, the tree having the number.
pub fn put_certificate(
    text: &mut Vec<u8>,
    certificate: &TreeCertificate,
    number: u32,
) -> Result<(), NoMemory>
    ensures { OnOk result (text.new.items ≡ text.old.items ++ certificate_text number certificate.now) }
{
    put(text, b"tree ")?;
    put_number(text, number as u64)?;
    put(text, b"\n")?;
    put_rows(text, certificate.costs.as_slice())?;
    put_cover(text, &certificate.rules)
}

/// The text of a tree's certificate, the tree having the number. Its first line is `tree` and the
/// number, then each node has a line in postorder with an entry for each nonterminal, and the last line
/// has the rules' numbers behind `cover`, or is `no cover`.
pub fn print_certificate(
    alloc: Global,
    certificate: &TreeCertificate,
    number: u32,
) -> Result<List<u8>, NoMemory>
    ensures { IfOk result (λ text. text ≡ certificate_text number certificate.now) }
{
    let mut text = Vec::new(alloc);
    put_certificate(&mut text, certificate, number)?;
    Ok(List::from_vec(text))
}
