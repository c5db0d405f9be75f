// The crew that answers a job's trees, from its beginning to its report.
ghost use Rattle.std.specs.Prelude.{List, [], IfOk};
ghost use Rattle.sel_forest.specs.declared.forest.Tree.{Tree as AnyTree};
ghost use Rattle.sel_grammar.specs.declared.grammar.Grammar.{Grammar};
ghost use Rattle.sel_items.specs.Laws.{IsAcceptedForm};
ghost use Rattle.sel_count.specs.Things.{AreValid};
ghost use Rattle.sel_words.specs.Settings.{AreWithinBounds};
ghost use Rattle.sel_words.specs.declared.settings.Settings.{Settings as AnySettings};
ghost use Rattle.sel_crew.specs.Crews.{IsCrew};
ghost use Rattle.sel_cli.specs.Crews.{HasAnswered};
ghost use Rattle.sel_cli.specs.Reporting.{TellsOf};

use crate::texts::Accepted;
use sel_base::NoMemory;
use sel_crew::{Crew, Options, Report};
use sel_words::Settings;
use std::alloc::Global;

/// How many trees are answered before their answers are written, or summed up.
pub const BATCH: usize = 1_024;

/// A crew as the options say, which has answered nothing yet.
pub fn begin_crew<'c>(
    alloc: Global,
    accepted: &'c Accepted,
    settings: Settings,
) -> Result<Crew<'c>, NoMemory>
    requires form { IsAcceptedForm accepted.now.grammar accepted.now.normal }
    requires settings { AreWithinBounds settings }
    ensures { IfOk result (HasAnswered accepted.now.grammar settings []) }
{
    let options = Options {
        workers: settings.workers as u32,
        states: settings.states as u32,
        rows: settings.rows as u32,
    };
    Crew::begin(alloc, &accepted.grammar, &accepted.normal, options)
}

/// What is reported of the trees that the crew answered.
pub fn report_of(alloc: Global, crew: Crew<'_>) -> Result<Report, NoMemory>
    requires crew { IsCrew crew }
    ensures { (g : Grammar) (settings : AnySettings) (trees : List AnyTree) → AreValid g trees → HasAnswered g settings trees crew.entry
        → IfOk result (TellsOf settings g trees) }
{
    crew.finish(alloc)
}
