// The least costs of trees, as text.
ghost use Rattle.std.specs.Prelude.{◌≡◌, ◌<◌, ◌+◌, ◌^◌, ◌++◌, Option, is_some, IfOk, OnOk, length, codes, decimal};
ghost use Rattle.std.specs.List.{list_all};
ghost use Rattle.sel_grammar.specs.Costs.{Cost};
ghost use Rattle.sel_answers.specs.Output.{least_text, least_costs_text};

use crate::answers::put_cost;
use crate::output::Output;
use sel_base::text::{put, put_number};
use sel_base::{NoMemory, Pair};
use std::alloc::Global;

fn put_least(text: &mut Vec<u8>, second: bool, cost: &Option<Pair>) -> Result<(), NoMemory>
    ensures { OnOk result (text.new.items ≡ text.old.items ++ least_text second cost.now) }
{
    match cost {
        None => put(text, b" no cover\n"),
        Some(cost) => {
            put(text, b" least ")?;
            put_cost(text, second, cost.first as u128, cost.second as i128)?;
            put(text, b"\n")
        }
    }
}

fn put_trees_least(
    text: &mut Vec<u8>,
    second: bool,
    number: u64,
    cost: &Option<Pair>,
) -> Result<(), NoMemory>
    ensures { OnOk result (text.new.items ≡ text.old.items ++ (codes "; tree " ++ (decimal number ++ least_text second cost.now))) }
{
    put(text, b"; tree ")?;
    put_number(text, number)?;
    put_least(text, second, cost)
}

fn put_least_costs(text: &mut Vec<u8>, second: bool, costs: &[Option<Pair>]) -> Result<(), NoMemory>
    requires few { length costs.now < 2 ^ 32 }
    ensures { OnOk result (text.new.items ≡ text.old.items ++ least_costs_text second 1 costs.now) }
{
    let mut number = 0;
    'costs: for cost in costs {
        number += 1;
        put_trees_least(text, second, number, cost)?;
    }
    Ok(())
}

fn has_cost(cost: &Option<Pair>) -> bool
    ensures { result ≡ is_some cost.now }
{
    cost.is_some()
}

fn have_costs(costs: &[Option<Pair>]) -> bool
    ensures { result ≡ list_all (λ (cost : Option Cost). is_some cost) costs.now }
{
    costs.iter().all(|cost| has_cost(cost))
}

/// The least costs of trees, which are numbered from 1, and whether each tree has one.
pub fn least_output(alloc: Global, second: bool, costs: &[Option<Pair>]) -> Result<Output, NoMemory>
    requires few { length costs.now < 2 ^ 32 }
    ensures text { IfOk result (λ output. output.text.items ≡ least_costs_text second 1 costs.now) }
    ensures covered { IfOk result (λ output. output.covered ≡ list_all (λ (cost : Option Cost). is_some cost) costs.now) }
{
    let mut text = Vec::new(alloc);
    put_least_costs(&mut text, second, costs)?;
    let covered = have_costs(costs);
    Ok(Output { text, covered })
}
