// Keys of nodes by the numbers of their kids' states.
ghost use Rattle.std.specs.Prelude.{◌≡◌, Option};
ghost use Rattle.sel_auto.specs.Keys.{kid_number, numbered_key};

use sel_items::Label;

/// What a node's state follows from: the operator, the class of its attribute (0 with kids), and the
/// numbers of its kids' states, of which one is the first.
#[derive(Clone, Copy, Debug, PartialEq, Eq, Hash)]
pub struct StateKey {
    pub operator: u8,
    pub class: u16,
    pub first: Option<u16>,
    pub second: Option<u16>,
}

/// The number of a kid's state, where there is a kid. None where its label is plain.
fn kid_number(label: Option<Label>) -> Option<Option<u16>>
    ensures { result ≡ kid_number label }
{
    match label {
        None => Some(None),
        Some(Label::Numbered(number)) => Some(Some(number)),
        Some(Label::Plain(_)) => None,
    }
}

/// The key of a node. None where a kid's label is plain.
pub fn numbered_key(
    operator: u8,
    class: u16,
    kids: (Option<Label>, Option<Label>),
) -> Option<StateKey>
    ensures { result ≡ numbered_key operator class kids.0 kids.1 }
{
    let first = kid_number(kids.0)?;
    let second = kid_number(kids.1)?;
    Some(StateKey {
        operator,
        class,
        first,
        second,
    })
}
