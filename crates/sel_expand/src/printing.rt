ghost use Rattle.std.specs.Prelude.{List, ◌≡◌, ◌++◌, ◌<◌, length, map, slice_get, slice_set, IfOk, Some, Option, ℕ, []};
ghost use Rattle.std.specs.Option.{option_copied};
ghost use Rattle.sel_grammar.specs.declared.emission.Emitted.TheVariants.{Byte};
ghost use Rattle.sel_grammar.specs.Expansions.{attribute_bytes};
ghost use Rattle.sel_expand.specs.declared.sheet.Span.{Span as AnySpan};
ghost use Rattle.sel_expand.specs.declared.templates.Kind.TheVariants.{Fragment};
ghost use Rattle.sel_expand.specs.Reductions.{Reduced as AnyReduced};
ghost use Rattle.sel_expand.specs.Running.{attribute_at};
ghost use Rattle.sel_expand.specs.Values.{text_at};
ghost use Rattle.sel_expand.specs.Printing.{flat, only_part, Puts, Fills, IsKidOf, IsPrinted, part_wanted, with_kids, HasTexts, IsValuePrinted, IsLinePrinted, AreAllPrinted, is_line, is_line_kind};

use crate::reductions::{Reduction, Reductions, kid_at};
use crate::sheet::{Sheet, Span};
use crate::templates::{Kind, parts_of};
use itoa::Buffer;
use sel_base::NoMemory;
use sel_forest::{Node, node_at};
use sel_grammar::{Attribute, Grammar, Part};

/// What is to be done: a reduction's template from a part on, or to note where a reduction's value stands.
#[derive(Clone, Copy, Debug, Drop)]
pub enum Frame {
    Fill(usize, usize),
    Note(usize, usize),
}

fn part_at(parts: &[Part], place: usize) -> Option<&Part>
    ensures { option_copied result ≡ slice_get parts.now place }
{
    parts.get(place)
}

fn put_own<S: Sheet>(attribute: &Attribute, out: &mut S) -> Result<(), NoMemory>
    ensures { IfOk result (λ _. S.told out.new ≡ S.told out.old ++ map Byte (attribute_bytes attribute.now)) }
{
    match attribute {
        Attribute::Absent => Ok(()),
        Attribute::Number(number) => {
            let mut buffer = Buffer::new();
            out.put_bytes(buffer.format(*number).as_bytes())
        }
        Attribute::Symbol(name) => out.put_bytes(name.as_slice()),
    }
}

fn put_attribute<S: Sheet>(nodes: &[Node], at: usize, out: &mut S) -> Result<(), NoMemory>
    ensures { IfOk result (λ _. S.told out.new ≡ S.told out.old ++ map Byte (attribute_bytes (attribute_at nodes.now at))) }
{
    match node_at(nodes, at) {
        Some(node) => put_own(&node.attribute, out),
        None => Ok(()),
    }
}

fn span_of(spans: &[Option<Span>], at: usize) -> Option<Span>
    ensures { result ≡ flat (slice_get spans.now at) }
{
    match spans.get(at) {
        Some(span) => *span,
        None => None,
    }
}

fn only_part(parts: &[Part]) -> Option<&Part>
    ensures { option_copied result ≡ only_part parts.now }
{
    match parts {
        [part] => Some(part),
        _ => None,
    }
}

/// Prints the value of a fragment that stands nowhere yet, where its template is a text or the attribute
/// alone, or tells it.
fn put_fragment<S: Sheet>(
    grammar: &Grammar,
    nodes: &[Node],
    own: Reduction,
    kid: usize,
    out: &mut S,
) -> Result<Option<usize>, NoMemory>
    requires { own.kind ≡ Fragment }
    ensures { IfOk result (λ later. (rs : List AnyReduced) (spans : List (Option AnySpan)) (kids : List ℕ) → slice_get rs kid ≡ Some (with_kids own kids)
        → Puts S.apart grammar.now nodes.now rs spans (S.told out.old) (S.told out.new) later (λ texts. text_at texts kid) (λ j. j ≡ kid)) }
{
    match only_part(parts_of(grammar, own.rule)) {
        Some(part) => match part {
            Part::Text(text) => {
                out.put_bytes(text.as_slice())?;
                Ok(None)
            }
            Part::Attribute => {
                put_attribute(nodes, own.at, out)?;
                Ok(None)
            }
            _ => Ok(Some(kid)),
        },
        None => Ok(Some(kid)),
    }
}

/// Prints the value of the reduction, or tells it where it is a fragment's that is to be printed first.
fn put_kid<S: Sheet>(
    grammar: &Grammar,
    nodes: &[Node],
    reductions: &Reductions,
    spans: &[Option<Span>],
    kid: usize,
    out: &mut S,
) -> Result<Option<usize>, NoMemory>
    ensures { IfOk result (λ later. Puts S.apart grammar.now nodes.now reductions.now spans.now (S.told out.old) (S.told out.new) later (λ texts. text_at texts kid) (λ j. j ≡ kid)) }
{
    let Some(own) = reductions.own(kid) else {
        return Ok(None);
    };
    match own.kind {
        Kind::Named => {
            out.put_temporary(own.next)?;
            Ok(None)
        }
        Kind::Unnamed => Ok(None),
        Kind::Fragment => match span_of(spans, kid) {
            Some(span) => {
                out.put_copy(span)?;
                Ok(None)
            }
            None => put_fragment(grammar, nodes, own, kid, out),
        },
    }
}

/// Prints the part of the reduction's template, or tells the kid whose value is to be printed first.
/// These are the places of the reduction's kids.
fn put_part<S: Sheet>(
    grammar: &Grammar,
    nodes: &[Node],
    reductions: &Reductions,
    spans: &[Option<Span>],
    own: Reduction,
    kids: &[usize],
    part: &Part,
    out: &mut S,
) -> Result<Option<usize>, NoMemory>
    ensures { IfOk result (λ later. Puts S.apart grammar.now nodes.now reductions.now spans.now (S.told out.old) (S.told out.new) later
        (part_wanted nodes.now (with_kids own kids.now) part.now) (IsKidOf (with_kids own kids.now))) }
{
    match part {
        Part::Text(text) => {
            out.put_bytes(text.as_slice())?;
            Ok(None)
        }
        Part::Attribute => {
            put_attribute(nodes, own.at, out)?;
            Ok(None)
        }
        Part::Temp => {
            out.put_temporary(own.next)?;
            Ok(None)
        }
        Part::Kid(kid) => match kid_at(kids, *kid as usize) {
            Some(at) => put_kid(grammar, nodes, reductions, spans, at, out),
            None => Ok(None),
        },
    }
}

/// Prints the reduction's template from a part on. Where a kid's value is to be printed first, what is
/// left to be done is put on the stack. Tells whether the sheet is full.
fn fill<S: Sheet>(
    grammar: &Grammar,
    nodes: &[Node],
    reductions: &Reductions,
    spans: &[Option<Span>],
    at: usize,
    first: usize,
    frames: &mut Vec<Frame>,
    out: &mut S,
) -> Result<bool, NoMemory>
    ensures { IfOk result (Fills S.apart grammar.now nodes.now reductions.now spans.now at first (S.told out.old) (S.told out.new) frames.old.items frames.new.items) }
{
    let Some(own) = reductions.own(at) else {
        return Ok(false);
    };
    let parts = parts_of(grammar, own.rule);
    let kids = reductions.kids(at);
    let mut place = first;
    'parts: while let Some(part) = part_at(parts, place) {
        if out.is_full() {
            return Ok(true);
        }
        if let Some(kid) = put_part(grammar, nodes, reductions, spans, own, kids, part, out)? {
            frames.push(Frame::Fill(at, place + 1))?;
            frames.push(Frame::Note(kid, out.len()))?;
            frames.push(Frame::Fill(kid, 0))?;
            return Ok(false);
        }
        place += 1;
    }
    Ok(false)
}

/// Notes where the reduction's value stands.
fn note(spans: &mut Vec<Option<Span>>, at: usize, span: Span)
    requires { at < length spans.old.items }
    ensures { spans.new.items ≡ slice_set spans.old.items at (Some span) }
{
    spans[at] = Some(span);
}

/// Prints the reduction's template, and tells whether the sheet is full.
fn print<S: Sheet>(
    grammar: &Grammar,
    nodes: &[Node],
    reductions: &Reductions,
    first: usize,
    spans: &mut Vec<Option<Span>>,
    frames: &mut Vec<Frame>,
    out: &mut S,
) -> Result<bool, NoMemory>
    requires { HasTexts grammar.now nodes.now reductions.now }
    ensures { IfOk result (IsPrinted S.apart grammar.now nodes.now reductions.now first spans.old.items spans.new.items (S.told out.old) (S.told out.new)) }
{
    frames.clear();
    frames.push(Frame::Fill(first, 0))?;
    'frames: while let Some(frame) = frames.pop() {
        match frame {
            Frame::Fill(at, place) => {
                if fill(
                    grammar,
                    nodes,
                    reductions,
                    spans.as_slice(),
                    at,
                    place,
                    frames,
                    out,
                )? {
                    return Ok(true);
                }
            }
            Frame::Note(at, start) => {
                let end = out.len();
                if at < spans.len() {
                    note(spans, at, Span { start, end });
                }
            }
        }
    }
    Ok(false)
}

/// Prints the reduction's value, and tells whether the sheet is full.
fn print_value<S: Sheet>(
    grammar: &Grammar,
    nodes: &[Node],
    reductions: &Reductions,
    at: usize,
    spans: &mut Vec<Option<Span>>,
    frames: &mut Vec<Frame>,
    out: &mut S,
) -> Result<bool, NoMemory>
    requires { HasTexts grammar.now nodes.now reductions.now }
    ensures { IfOk result (IsValuePrinted S.apart grammar.now nodes.now reductions.now at spans.old.items (S.told out.old) (S.told out.new)) }
{
    let Some(own) = reductions.own(at) else {
        return Ok(false);
    };
    match own.kind {
        Kind::Named => {
            out.put_temporary(own.next)?;
            Ok(false)
        }
        Kind::Unnamed => Ok(false),
        Kind::Fragment => print(grammar, nodes, reductions, at, spans, frames, out),
    }
}

fn is_line_kind(kind: Kind) -> bool
    ensures { result ≡ is_line_kind kind }
{
    match kind {
        Kind::Named | Kind::Unnamed => true,
        Kind::Fragment => false,
    }
}

fn is_line(reductions: &Reductions, at: usize) -> bool
    ensures { result ≡ is_line (slice_get reductions.now at) }
{
    match reductions.own(at) {
        Some(own) => is_line_kind(own.kind),
        None => false,
    }
}

/// Prints the line of the reduction, where it is an instruction's, and tells whether the sheet is full.
fn print_line<S: Sheet>(
    grammar: &Grammar,
    nodes: &[Node],
    reductions: &Reductions,
    at: usize,
    spans: &mut Vec<Option<Span>>,
    frames: &mut Vec<Frame>,
    out: &mut S,
) -> Result<bool, NoMemory>
    requires { HasTexts grammar.now nodes.now reductions.now }
    ensures { IfOk result (IsLinePrinted S.apart grammar.now nodes.now reductions.now at spans.old.items spans.new.items (S.told out.old) (S.told out.new)) }
{
    if is_line(reductions, at) {
        print(grammar, nodes, reductions, at, spans, frames, out)
    } else {
        Ok(false)
    }
}

/// Prints all lines and then the value of one reduction, on an empty sheet, and tells whether they are more than
/// a text may have.
pub fn print_all<S: Sheet>(
    grammar: &Grammar,
    nodes: &[Node],
    reductions: &Reductions,
    last: usize,
    spans: &mut Vec<Option<Span>>,
    frames: &mut Vec<Frame>,
    out: &mut S,
) -> Result<bool, NoMemory>
    requires texts { HasTexts grammar.now nodes.now reductions.now }
    requires empty { S.told out.old ≡ [] }
    ensures { IfOk result (AreAllPrinted S.apart grammar.now nodes.now reductions.now last (S.told out.new)) }
{
    spans.clear();
    spans.resize(reductions.len(), None)?;
    'reductions: for at in 0..reductions.len() {
        if print_line(grammar, nodes, reductions, at, spans, frames, out)? {
            return Ok(true);
        }
    }
    if print_value(grammar, nodes, reductions, last, spans, frames, out)? {
        return Ok(true);
    }
    Ok(out.is_full())
}
