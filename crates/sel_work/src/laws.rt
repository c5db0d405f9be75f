//! Laws of answers. The functions do nothing: their contracts say them.
ghost use Rattle.sel_work.specs.Laws.{AnswerIsOne, AnswerExists};

use sel_items::laws::items_exist;

/// A tree has at most one answer for a goal.
pub fn answer_is_one()
    ensures { AnswerIsOne }
{}

/// Under a grammar that is lawful and accepted each tree has an answer for each goal.
pub fn answer_exists()
    ensures { AnswerExists }
{
    items_exist();
}
