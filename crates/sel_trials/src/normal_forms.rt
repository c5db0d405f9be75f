// A normal form as text.
use crate::accepted::accept;
use crate::stop::Stop;
use sel_base::NoMemory;
use sel_normal::{Body, Normal, NormalRule};
use sel_sheet::Row;
use std::alloc::Global;
use std::fmt::Write;

fn put_number(out: &mut String, number: Option<u16>) -> Result<(), NoMemory> {
    match number {
        Some(number) => write!(out, "{number}")?,
        None => write!(out, "-")?,
    }
    Ok(())
}

fn put_behind_comma(out: &mut String, number: Option<u16>) -> Result<(), NoMemory> {
    out.push_str(",")?;
    put_number(out, number)
}

// `FIRST,SECOND,TEST)`
fn put_parts(
    out: &mut String,
    first: Option<u16>,
    second: Option<u16>,
    test: Option<u16>,
) -> Result<(), NoMemory> {
    put_number(out, first)?;
    put_behind_comma(out, second)?;
    put_behind_comma(out, test)?;
    out.push_str(")")?;
    Ok(())
}

fn put_body(out: &mut String, body: Body) -> Result<(), NoMemory> {
    match body {
        Body::Chain(nonterminal) => Ok(write!(out, "{nonterminal}")?),
        Body::Operator {
            operator,
            first,
            second,
            test,
        } => {
            write!(out, "{operator}(")?;
            put_parts(out, first, second, test)
        }
    }
}

fn put_rule(out: &mut String, user_rule: Option<u16>, rule: NormalRule) -> Result<(), NoMemory> {
    out.push_str("; ")?;
    put_number(out, user_rule)?;
    write!(out, " {}=", rule.left)?;
    put_body(out, rule.body)?;
    write!(out, " {},{}", rule.cost.first, rule.cost.second)?;
    Ok(())
}

fn put_normal(out: &mut String, normal: &Normal) -> Result<(), NoMemory> {
    write!(out, "{}", normal.nonterminals())?;
    for number in 1..normal.rules() + 1 {
        put_rule(out, normal.user_rule(number), normal.rule(number))?;
    }
    out.push_str("\n")?;
    Ok(())
}

// `NONTERMINALS; USER RULE LEFT=OPERATOR(FIRST,SECOND,TEST) COST,COST; ..`
fn shown(alloc: Global, normal: &Normal) -> Result<String, NoMemory> {
    let mut out = String::new(alloc);
    put_normal(&mut out, normal)?;
    Ok(out)
}

/// The normal form of the row's grammar.
pub fn normal(alloc: Global, row: &Row<'_>) -> Result<String, Stop> {
    let accepted = accept(alloc, row)?;
    Ok(shown(alloc, &accepted.normal)?)
}

/// The class of the row's number under the row's grammar, and the last class.
pub fn class(alloc: Global, row: &Row<'_>) -> Result<String, Stop> {
    let accepted = accept(alloc, row)?;
    let Ok(number) = row.words.parse::<i64>() else {
        return Err(Stop::Unfit("no number"));
    };
    let classes = accepted.normal.classes();
    let class = classes.class_of(Some(number));
    Ok(format!(in alloc; "{class} of {}\n", classes.last())?)
}
