// How a run ends.
ghost use Rattle.std.specs.Prelude.{◌≡◌};
ghost use Rattle.sel_cli.specs.Code.{code_of};
ghost use Rattle.sel_cli.specs.Ends.{finished};

use sel_check::CheckFault;
use sel_forest::ForestFault;
use sel_grammar::GrammarFault;

/// How a run ended.
#[derive(Clone, Copy, Debug, PartialEq, Eq)]
pub enum Status {
    /// All was read and written, every tree is covered, and no text is too long.
    Done,
    /// The words are no command.
    Usage,
    /// A text could not be read.
    ReadFault,
    /// A text is longer than its limit.
    TooBig,
    BadGrammar(GrammarFault),
    BadForest(ForestFault),
    /// A write failed.
    WriteFault,
    NoMemory,
    /// All was written, and some tree has no cover, a text that is too long, or too few registers.
    Uncovered,
    /// A text of certificates proves nothing.
    BadCertificate(CheckFault),
}

impl Status {
    /// The program's exit status.
    pub fn code(&self) -> u8
        ensures { result ≡ code_of self.now }
    {
        match self {
            Status::Done => 0,
            Status::Usage => 1,
            Status::ReadFault => 2,
            Status::TooBig => 3,
            Status::BadGrammar(_) => 4,
            Status::BadForest(_) => 5,
            Status::WriteFault => 6,
            Status::NoMemory => 7,
            Status::Uncovered => 8,
            Status::BadCertificate(_) => 9,
        }
    }
}

/// The status of a job that is done, by whether every tree is covered.
pub fn finished(covered: bool) -> Status
    ensures { result ≡ finished covered }
{
    if covered {
        Status::Done
    } else {
        Status::Uncovered
    }
}
