// Item sets as keys of maps: equal ones are the same, and a hasher is fed all their entries.
ghost use Rattle.std.proofs.Common.{rules};
ghost use Rattle.std.specs.Cmp.{partial_equiv_from_equiv};
ghost use Rattle.std.specs.Cmp.Rules.{hashing};
ghost use Rattle.sel_items.specs.Equality.{items_eq, item_input, items_input, EqualAreSame};
ghost use Rattle.sel_items.specs.EqualityLaws.{items_equiv, items_respected};

use crate::items::{Item, Items};
use std::hash::{Hash, Hasher};

/// Item sets are equal exactly where they are the same.
pub fn equal_are_same()
    ensures { EqualAreSame }
{}

impl PartialEq for Items {
    ghost eq = { items_eq };

    ghost laws = { partial_equiv_from_equiv items_equiv };

    fn eq(&self, other: &Items) -> bool {
        self.entries.as_slice() == other.entries.as_slice()
    }
}

impl Eq for Items {
    ghost laws = { items_equiv };
}

impl Hash for Item {
    ghost hash_input = { item_input };

    ghost respects_eq = { Prim.search (hashing, rules) };

    fn hash<H: Hasher>(&self, state: &mut H) {
        state.write_u64(self.cost.first);
        state.write_i64(self.cost.second);
        state.write_u16(self.rule);
    }
}

impl Hash for Items {
    ghost hash_input = { items_input };

    ghost respects_eq = { items_respected };

    fn hash<H: Hasher>(&self, state: &mut H) {
        self.entries.as_slice().hash(state);
    }
}
