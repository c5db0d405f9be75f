ghost use Rattle.std.specs.Prelude.{◌≡◌};

use sel_base::NoMemory;

/// What is wrong with a tree's certificate.
#[derive(Clone, Copy, Debug, PartialEq, Eq)]
pub enum TreeFault {
    /// A rule breaks its bound at the node with this place in postorder.
    Bound(usize),
    /// The rules are no derivation's.
    Cover,
    /// The rules and the claim of the root and the start symbol don't agree.
    Cost,
}

/// Why a tree's certificate proves nothing.
#[derive(Clone, Copy, Debug, PartialEq, Eq)]
pub enum TreeRefusal {
    Fault(TreeFault),
    NoMemory,
}

impl From<NoMemory> for TreeRefusal {
    ghost use Rattle.sel_check.specs.declared.refusal.TreeRefusal.TheVariants as refusal;

    ghost from_gives = { λ _ e. e ≡ refusal.NoMemory };

    fn from(_: NoMemory) -> TreeRefusal {
        TreeRefusal::NoMemory
    }
}

/// The first fault of a text of certificates: its kind (`kinds` has their names), and its line from 1.
#[derive(Clone, Copy, Debug, PartialEq, Eq)]
pub struct CheckFault {
    pub kind: u8,
    pub line: u32,
}

/// Why a text of certificates proves nothing.
#[derive(Clone, Copy, Debug, PartialEq, Eq)]
pub enum CheckRefusal {
    Fault(CheckFault),
    NoMemory,
}

impl From<NoMemory> for CheckRefusal {
    ghost use Rattle.sel_check.specs.declared.refusal.CheckRefusal.TheVariants as refusal;

    ghost from_gives = { λ _ e. e ≡ refusal.NoMemory };

    fn from(_: NoMemory) -> CheckRefusal {
        CheckRefusal::NoMemory
    }
}
