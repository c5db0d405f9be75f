// A forest is made batch by batch, and summed up.
ghost use Rattle.std.specs.Prelude.{◌≡◌, ◌≤◌, ◌+◌, ◌++◌, [], None, List, length, IfOk};
ghost use Rattle.sel_forest.specs.declared.forest.Tree.{Tree as AnyTree};
ghost use Rattle.sel_forest.specs.Limits.{most_trees};
ghost use Rattle.sel_items.specs.Laws.{IsAcceptedForm};
ghost use Rattle.sel_count.specs.Things.{AreValid};
ghost use Rattle.sel_gen.specs.Maker.{AreToCome};
ghost use Rattle.sel_crew.specs.Crews.{IsCrew, grammar_of};
ghost use Rattle.sel_words.specs.Settings.{AreWithinBounds};
ghost use Rattle.sel_words.specs.Words.{Make};
ghost use Rattle.sel_cli.specs.Crews.{AnswersMore, SumsUpTrees};
ghost use Rattle.sel_cli.specs.Parts.{DoesJob};

use crate::jobs::crew::{BATCH, begin_crew};
use crate::jobs::reported::Reported;
use crate::jobs::summary::{sum_batch, write_summary};
use crate::status::Status;
use crate::texts::Accepted;
use sel_answers::Summing;
use sel_base::{Gate, NoMemory, Sink};
use sel_crew::Crew;
use sel_forest::Tree;
use sel_gen::TreeMaker;
use sel_words::Settings;
use std::alloc::Global;
use std::thread::Threads;

// The next trees, as many as a batch has, or all that are left.
fn next_batch(alloc: Global, maker: &mut TreeMaker<'_>) -> Result<Vec<Tree>, NoMemory>
    ensures next { IfOk result (λ batch. (rest : List AnyTree) → AreToCome maker.new rest → AreToCome maker.old (batch.items ++ rest)) }
    ensures valid { IfOk result (λ batch. AreValid maker.old.grammar batch.items) }
    ensures fewer { IfOk result (λ batch. length batch.items + maker.new.left ≡ maker.old.left) }
    ensures last { IfOk result (λ batch. batch.items ≡ [] → AreToCome maker.new []) }
    ensures grammar { maker.new.grammar ≡ maker.old.grammar }
{
    let mut batch = Vec::new(alloc);
    'trees: while batch.len() < BATCH {
        match maker.next(alloc)? {
            Some(tree) => batch.push(tree)?,
            None => return Ok(batch),
        }
    }
    Ok(batch)
}

// The sums of the answers of the trees that the maker makes.
fn sum_made<Rt: Threads + Sync, G: Gate>(
    rt: &Rt,
    alloc: Global,
    crew: &mut Crew<'_>,
    maker: &mut TreeMaker<'_>,
    gate: &G,
) -> Result<Summing, NoMemory>
    requires crew { IsCrew crew.old }
    requires grammar { maker.old.grammar ≡ grammar_of crew.old }
    requires few { maker.old.left ≤ most_trees }
    ensures crew { IsCrew crew.new }
    ensures made { IfOk result (λ sums. (trees : List AnyTree) × AreToCome maker.old trees × SumsUpTrees (grammar_of crew.old) trees sums
        × AreValid (grammar_of crew.old) trees × AnswersMore trees crew.old crew.new) }
{
    let mut sums = Summing::NONE;
    'batches: loop {
        let batch = next_batch(alloc, maker)?;
        if batch.is_empty() {
            return Ok(sums);
        }
        sums = sum_batch(rt, alloc, crew, &batch, sums, gate)?;
    }
}

/// Makes the forest that the settings say, and writes its summary.
pub fn make<Rt: Threads + Sync, K: Sink, G: Gate>(
    rt: &Rt,
    alloc: Global,
    accepted: &Accepted,
    settings: Settings,
    out: &mut K,
    gate: &G,
) -> Reported
    requires form { IsAcceptedForm accepted.now.grammar accepted.now.normal }
    requires settings { AreWithinBounds settings }
    ensures { DoesJob settings (Make settings.seed settings.trees settings.size) accepted.now.grammar None (K.told out.old) (K.told out.new) result.status result.report }
{
    let mut crew = match begin_crew(alloc, accepted, settings) {
        Ok(crew) => crew,
        Err(NoMemory) => return Reported::without(Status::NoMemory),
    };
    let trees = settings.trees as u32;
    let size = settings.size as u32;
    let mut maker = match TreeMaker::new(alloc, &accepted.grammar, settings.seed, trees, size) {
        Ok(maker) => maker,
        Err(NoMemory) => return Reported::without(Status::NoMemory),
    };
    match sum_made(rt, alloc, &mut crew, &mut maker, gate) {
        Ok(sums) => write_summary(alloc, accepted, crew, sums, out),
        Err(NoMemory) => Reported::without(Status::NoMemory),
    }
}
