// What is wanted of a closed table.
use sel_rows::State;

fn differs_from_all(state: &State, others: &[State]) -> bool {
    for other in others {
        if state.items.entries.as_slice() == other.items.entries.as_slice() {
            return false;
        }
    }
    true
}

/// Whether the states' item sets differ.
pub fn are_different(states: &[State]) -> bool {
    let mut others = states;
    while let Some((state, rest)) = others.split_first() {
        if !differs_from_all(state, rest) {
            return false;
        }
        others = rest;
    }
    true
}
