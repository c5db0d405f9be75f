ghost use Rattle.std.specs.Prelude.{◌≡◌, ◌↔◌, IsTrue};
ghost use Rattle.sel_grammar.specs.Costs.{no_cost, IsCheaper, paid};
ghost use Rattle.sel_grammar.specs.Limits.{greatest_cost};
ghost use Rattle.sel_plain.specs.CostBounds.{capped_sum, IsUpTo};

use sel_base::Pair;
use sel_grammar::RuleCost;

pub fn no_cost() -> Pair
    ensures { result ≡ no_cost }
{
    Pair {
        first: 0,
        second: 0,
    }
}

/// The cost of a rule by itself.
pub fn paid(cost: RuleCost) -> Pair
    ensures pair { result ≡ paid cost }
    ensures small { IsUpTo greatest_cost (paid cost) }
{
    Pair {
        first: cost.first as u64,
        second: cost.second as i64,
    }
}

pub fn is_cheaper(cost: Pair, other: Pair) -> bool
    ensures { IsTrue result ↔ IsCheaper cost other }
{
    cost.first < other.first || (cost.first == other.first && cost.second < other.second)
}

pub fn capped_sum(cost: Pair, other: Pair) -> Pair
    ensures { result ≡ capped_sum cost other }
{
    Pair {
        first: cost.first.saturating_add(other.first),
        second: cost.second.saturating_add(other.second),
    }
}
