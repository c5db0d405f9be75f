//! What becomes of the tokens of a text, as they are read.

ghost use Rattle.std.specs.Prelude.{◌≡◌, ◌++◌, ◌∷◌, [], List, OnOk};
ghost use Rattle.sel_grammar.specs.declared.grammar.Grammar.{Grammar as AnyGrammar};
ghost use Rattle.sel_forest.specs.declared.forest.Tree.{Tree as AnyTree};
ghost use Rattle.sel_forest.specs.Pieces.{view};
ghost use Rattle.sel_forest.specs.Taking.{Continues, AreTokensOf, IsLineOf};
ghost use Rattle.sel_forest.specs.Tokens.{Token as AnyToken};

use crate::tokens::Piece;
use sel_base::NoMemory;

/// Takes the tokens of a text, line by line, when they are known to be right.
pub trait Taker {
    ghost use Rattle.std.specs.Prelude.{List};
    ghost use Rattle.sel_grammar.specs.declared.grammar.Grammar.{Grammar};
    ghost use Rattle.sel_forest.specs.declared.forest.Tree.{Tree};
    ghost use Rattle.sel_forest.specs.Tokens.{Token};

    /// under the grammar these trees were taken, then these tokens of a line, and no others
    ghost took: { Self → Grammar → List Tree → List Token → Type 0 };

    /// Takes the next token of the line. The operator is that which the token names.
    fn take(&mut self, operator: u8, piece: &Piece<'_>) -> Result<(), NoMemory>
        requires { (g : AnyGrammar) × (trees : List AnyTree) × (ts : List AnyToken) × took self.old g trees ts × Continues g operator ts (view piece.now) }
        ensures { (g : AnyGrammar) (trees : List AnyTree) (ts : List AnyToken) → took self.old g trees ts → Continues g operator ts (view piece.now)
            → OnOk result (took self.new g trees (ts ++ view piece.now ∷ [])) };

    /// The line's tree is whole. A plain line has no blank.
    fn end(&mut self, line: &[u8], plain: bool) -> Result<(), NoMemory>
        ensures { (g : AnyGrammar) (trees : List AnyTree) (ts : List AnyToken) (tree : AnyTree) → took self.old g trees ts → AreTokensOf g ts tree
            → IsLineOf ts line.now plain → OnOk result (took self.new g (trees ++ tree ∷ []) []) };
}
