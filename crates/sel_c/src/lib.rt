//! The selector for C. `sel.h` declares it.
#![tactic(auto)]

ghost use Rattle.std.specs.Prelude.{◌≡◌, None, IfSome};
ghost use Rattle.sel_work.specs.declared.answer.Goal.TheVariants as goals;
ghost use Rattle.sel_c.specs.Usable.{IsUsable, IsSameSelector};
ghost use Rattle.sel_c.specs.Answers.{TellsText, TellsRules, TellsOfHeldLine};
ghost use Rattle.sel_c.specs.Openings.{TellsOfOpening};
ghost use Rattle.sel_c.specs.Operators.{IsOperatorNumber};
ghost use Rattle.sel_c.specs.Rules.{TellsRule, held_rule};
ghost use Rattle.sel_c.specs.Rooms.{MakesRoom};

mod accepted;
mod answering;
mod bare;
mod handle;
mod held;
mod line;
mod opening;
mod operators;
mod told;

use handle::Handle;
use line::{line_rules, line_text};
use opening::{accept, tell_unopened};
use operators::{NO_OPERATOR, operator_number, tell_rule};
use std::alloc::Global;
use told::{DONE, IS_CLOSED, IS_OPEN, Told, ToldRule};

/// The most states and transitions that may be kept.
const MOST_STATES: u32 = 32_768;

const MOST_ROWS: u32 = 1_048_576;

/// Takes up the grammar that the text spells, in a handle that is closed.
#[unsafe(no_mangle)]
pub extern "C" fn sel_open(alloc: Global, sel: &mut Handle, text: &[u8]) -> Told
    requires usable { IfSome sel.old.held.table IsUsable }
    ensures told { TellsOfOpening text.now sel.old.held.table sel.new.held.table result }
    ensures usable { IfSome sel.new.held.table IsUsable }
{
    if sel.full {
        return Told::of_code(IS_OPEN);
    }
    match accept(alloc, text) {
        Ok(table) => {
            sel.put(table);
            Told::of_code(DONE)
        }
        Err(why) => tell_unopened(why),
    }
}

/// Frees what the handle holds.
#[unsafe(no_mangle)]
pub extern "C" fn sel_close(alloc: Global, sel: &mut Handle)
    ensures { sel.new.held.table ≡ None }
{
    drop(sel.take(alloc));
}

/// The text of the cheapest cover of the line's one tree.
#[unsafe(no_mangle)]
pub extern "C" fn sel_line_text(
    alloc: Global,
    sel: &mut Handle,
    line: &[u8],
    out: &mut [u8],
) -> Told
    requires usable { IfSome sel.old.held.table IsUsable }
    ensures told { TellsOfHeldLine sel.old.held.table goals.Text line.now out.old out.new result (TellsText out.old out.new result) }
    ensures same { IsSameSelector sel.old.held.table sel.new.held.table }
    ensures usable { IfSome sel.new.held.table IsUsable }
{
    match sel.take(alloc) {
        Some(mut table) => {
            let told = line_text(alloc, &mut table, line, out);
            sel.put(table);
            told
        }
        None => Told::of_code(IS_CLOSED),
    }
}

/// The rules of the cheapest cover of the line's one tree, in preorder.
#[unsafe(no_mangle)]
pub extern "C" fn sel_line_rules(
    alloc: Global,
    sel: &mut Handle,
    line: &[u8],
    rules: &mut [u16],
) -> Told
    requires usable { IfSome sel.old.held.table IsUsable }
    ensures told { TellsOfHeldLine sel.old.held.table goals.Cover line.now rules.old rules.new result (TellsRules rules.old rules.new result) }
    ensures same { IsSameSelector sel.old.held.table sel.new.held.table }
    ensures usable { IfSome sel.new.held.table IsUsable }
{
    match sel.take(alloc) {
        Some(mut table) => {
            let told = line_rules(alloc, &mut table, line, rules);
            sel.put(table);
            told
        }
        None => Told::of_code(IS_CLOSED),
    }
}

/// How many states and transitions may be kept from now on: at most 32,768 and 1,048,576. What was learned is
/// forgotten.
#[unsafe(no_mangle)]
pub extern "C" fn sel_room(alloc: Global, sel: &mut Handle, states: u32, rows: u32) -> bool
    requires usable { IfSome sel.old.held.table IsUsable }
    ensures room { MakesRoom states rows sel.old.held.table sel.new.held.table result }
    ensures usable { IfSome sel.new.held.table IsUsable }
{
    if MOST_STATES < states || MOST_ROWS < rows {
        return false;
    }
    match sel.take(alloc) {
        Some(mut table) => {
            table.make_room(states, rows);
            sel.put(table);
            true
        }
        None => false,
    }
}

/// The number of the operator of this name, or the greatest number of 32 bits where there is none.
#[unsafe(no_mangle)]
pub extern "C" fn sel_operator(alloc: Global, sel: &mut Handle, name: &[u8]) -> u32
    requires usable { IfSome sel.old.held.table IsUsable }
    ensures number { IsOperatorNumber sel.old.held.table name.now result }
    ensures same { sel.new.held.table ≡ sel.old.held.table }
{
    match sel.take(alloc) {
        Some(table) => {
            let number = operator_number(&table.grammar, name);
            sel.put(table);
            number
        }
        None => NO_OPERATOR,
    }
}

/// What the rule of this number is called, as `sel_line_rules` numbers it.
#[unsafe(no_mangle)]
pub extern "C" fn sel_rule_of(
    alloc: Global,
    sel: &mut Handle,
    rule: u16,
    out: &mut ToldRule,
) -> bool
    requires usable { IfSome sel.old.held.table IsUsable }
    ensures told { TellsRule (held_rule sel.old.held.table rule) out.old out.new result }
    ensures same { sel.new.held.table ≡ sel.old.held.table }
{
    match sel.take(alloc) {
        Some(table) => {
            let told = tell_rule(&table.grammar, rule, out);
            sel.put(table);
            told
        }
        None => false,
    }
}
