//! The two lists of a snapshot.
ghost use Rattle.std.specs.Prelude.{◌≡◌};
ghost use Rattle.sel_rows.specs.Snapshots.{states_of, transitions_of};

use crate::snapshot::{Snapshot, State, Transition};
use sel_base::List;

impl Snapshot {
    /// The states, by number.
    pub fn states(&self) -> &List<State>
        ensures { result.now ≡ states_of self.now }
    {
        &self.states
    }

    /// The transitions, by their place in the row.
    pub fn transitions(&self) -> &List<Transition>
        ensures { result.now ≡ transitions_of self.now }
    {
        &self.transitions
    }
}
