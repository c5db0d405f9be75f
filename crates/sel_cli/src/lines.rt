// The line that tells a status.
ghost use Rattle.std.specs.Prelude.{◌≡◌, ◌≤◌, ◌++◌, codes, OnOk};
ghost use Rattle.sel_cli.specs.Ends.{TellsLine};
ghost use Rattle.sel_cli.specs.Lines.{status_line, grammar_fault_line, forest_fault_line, certificate_fault_line, place_text, line_text, kind_text, grammar_kind_name, forest_kind_name, certificate_kind_name};

use crate::status::Status;
use sel_base::text::{put, put_number};
use sel_base::{NoMemory, Sink, write_all_of};
use sel_check::{CheckFault, kinds as certificate_kinds};
use sel_forest::{ForestFault, limits as forest_limits};
use sel_grammar::{GrammarFault, limits as grammar_limits};
use std::alloc::Global;

fn grammar_kind_name(kind: u8) -> &'static [u8]
    ensures { result.now ≡ grammar_kind_name kind }
{
    if kind == grammar_limits::TOKEN {
        b"Token"
    } else if kind == grammar_limits::NO_RULES {
        b"NoRules"
    } else if kind == grammar_limits::DUPLICATE_TERM {
        b"DuplicateTerm"
    } else if kind == grammar_limits::ARITY {
        b"Arity"
    } else if kind == grammar_limits::TERM_ON_LEFT {
        b"TermOnLeft"
    } else if kind == grammar_limits::NO_RULE {
        b"NoRule"
    } else if kind == grammar_limits::COST_FORM {
        b"CostForm"
    } else if kind == grammar_limits::COST_LARGE {
        b"CostLarge"
    } else if kind == grammar_limits::TEMPLATE_FORM {
        b"TemplateForm"
    } else if kind == grammar_limits::KID_NUMBER {
        b"KidNumber"
    } else if kind == grammar_limits::RESULT_IN_FRAGMENT {
        b"ResultInFragment"
    } else if kind == grammar_limits::RANGE_PLACE {
        b"RangePlace"
    } else if kind == grammar_limits::TOO_MANY {
        b"TooMany"
    } else if kind == grammar_limits::ZERO_CYCLE {
        b"ZeroCycle"
    } else {
        b"Unknown"
    }
}

fn forest_kind_name(kind: u8) -> &'static [u8]
    ensures { result.now ≡ forest_kind_name kind }
{
    if kind == forest_limits::TOKEN {
        b"Token"
    } else if kind == forest_limits::UNKNOWN_OPERATOR {
        b"UnknownOperator"
    } else if kind == forest_limits::ARITY {
        b"Arity"
    } else if kind == forest_limits::NUMBER_LARGE {
        b"NumberLarge"
    } else if kind == forest_limits::TOO_DEEP {
        b"TooDeep"
    } else if kind == forest_limits::TOO_MANY_NODES {
        b"TooManyNodes"
    } else if kind == forest_limits::TOO_MANY_TREES {
        b"TooManyTrees"
    } else {
        b"Unknown"
    }
}

fn certificate_kind_name(kind: u8) -> &'static [u8]
    ensures { result.now ≡ certificate_kind_name kind }
{
    if kind == certificate_kinds::TEXT {
        b"Text"
    } else if kind == certificate_kinds::BOUND {
        b"Bound"
    } else if kind == certificate_kinds::COVER {
        b"Cover"
    } else if kind == certificate_kinds::COST {
        b"Cost"
    } else {
        b"Unknown"
    }
}

fn put_place(text: &mut Vec<u8>, line: u32, column: u32) -> Result<(), NoMemory>
    ensures { OnOk result (text.new.items ≡ text.old.items ++ place_text line column) }
{
    put(text, b":")?;
    put_number(text, line as u64)?;
    put(text, b":")?;
    put_number(text, column as u64)?;
    Ok(())
}

fn put_line_number(text: &mut Vec<u8>, line: u32) -> Result<(), NoMemory>
    ensures { OnOk result (text.new.items ≡ text.old.items ++ line_text line) }
{
    put(text, b":")?;
    put_number(text, line as u64)?;
    Ok(())
}

fn put_kind(text: &mut Vec<u8>, kind: u8, word: &[u8]) -> Result<(), NoMemory>
    ensures { OnOk result (text.new.items ≡ text.old.items ++ kind_text kind word.now) }
{
    put_number(text, kind as u64)?;
    put(text, b" ")?;
    put(text, word)?;
    put(text, b"\n")?;
    Ok(())
}

fn put_grammar_fault(text: &mut Vec<u8>, name: &[u8], fault: GrammarFault) -> Result<(), NoMemory>
    ensures { OnOk result (text.new.items ≡ text.old.items ++ grammar_fault_line name.now fault) }
{
    put(text, name)?;
    put_place(text, fault.line, fault.column)?;
    put(text, b": grammar fault ")?;
    put_kind(text, fault.kind, grammar_kind_name(fault.kind))?;
    Ok(())
}

fn put_forest_fault(text: &mut Vec<u8>, name: &[u8], fault: ForestFault) -> Result<(), NoMemory>
    ensures { OnOk result (text.new.items ≡ text.old.items ++ forest_fault_line name.now fault) }
{
    put(text, name)?;
    put_place(text, fault.line, fault.column)?;
    put(text, b": forest fault ")?;
    put_kind(text, fault.kind, forest_kind_name(fault.kind))?;
    Ok(())
}

fn put_certificate_fault(text: &mut Vec<u8>, name: &[u8], fault: CheckFault) -> Result<(), NoMemory>
    ensures { OnOk result (text.new.items ≡ text.old.items ++ certificate_fault_line name.now fault) }
{
    put(text, name)?;
    put_line_number(text, fault.line)?;
    put(text, b": certificate fault ")?;
    put_kind(text, fault.kind, certificate_kind_name(fault.kind))?;
    Ok(())
}

fn put_three(text: &mut Vec<u8>, first: &[u8], second: &[u8], third: &[u8]) -> Result<(), NoMemory>
    ensures { OnOk result (text.new.items ≡ text.old.items ++ (first.now ++ (second.now ++ third.now))) }
{
    put(text, first)?;
    put(text, second)?;
    put(text, third)?;
    Ok(())
}

fn put_line(text: &mut Vec<u8>, name: &[u8], status: Status) -> Result<(), NoMemory>
    ensures { OnOk result (text.new.items ≡ text.old.items ++ status_line name.now status) }
{
    match status {
        Status::Done | Status::Uncovered => Ok(()),
        Status::Usage => {
            put(text, b"usage: sel MODE GRAMMAR [FOREST] [OPTIONS]\n")?;
            Ok(())
        }
        Status::ReadFault => {
            put_three(text, b"cannot read ", name, b"\n")?;
            Ok(())
        }
        Status::TooBig => {
            put_three(text, name, b" is too big", b"\n")?;
            Ok(())
        }
        Status::BadGrammar(fault) => {
            put_grammar_fault(text, name, fault)?;
            Ok(())
        }
        Status::BadForest(fault) => {
            put_forest_fault(text, name, fault)?;
            Ok(())
        }
        Status::BadCertificate(fault) => {
            put_certificate_fault(text, name, fault)?;
            Ok(())
        }
        Status::WriteFault => {
            put(text, b"write fault\n")?;
            Ok(())
        }
        Status::NoMemory => {
            put(text, b"no memory\n")?;
            Ok(())
        }
    }
}

/// Puts the status's line. A fault there changes nothing.
pub fn tell<E: Sink>(alloc: Global, name: &str, status: Status, err: &mut E)
    ensures line { TellsLine name.now status (E.told err.old) (E.told err.new) }
    ensures later { (E.told err.old).faults ≤ (E.told err.new).faults }
{
    let mut text = Vec::new(alloc);
    if put_line(&mut text, name.as_bytes(), status).is_ok() {
        let _ = write_all_of(err, &text);
    }
}
