//! The item sets of a node's kids, and the number of its key.
ghost use Rattle.std.specs.Prelude.{◌≡◌, Some, IfOk};
ghost use Rattle.std.specs.Option.{option_copied};
ghost use Rattle.sel_rows.specs.Grown.{Grown, KeepsOwn};
ghost use Rattle.sel_rows.specs.Keys.{key_number, IsReadable, kid_read, kid_chosen};

use crate::hand::Hand;
use sel_base::NoMemory;
use sel_items::{Items, Label};
use sel_law::Doing;
use std::alloc::Global;

/// The number of a node's key. None where a kid's label is plain.
pub fn key_number(operator: u8, class: u16, kids: (Option<Label>, Option<Label>)) -> Option<u64>
    ensures { result ≡ key_number operator class kids.0 kids.1 }
{
    let operator = operator as u64;
    match kids.0 {
        None => match kids.1 {
            None => Some((3 * operator + 1) * 4_294_967_296 + class as u64 * 65_536),
            Some(_) => None,
        },
        Some(Label::Plain(_)) => None,
        Some(Label::Numbered(left)) => match kids.1 {
            None => Some((3 * operator + 2) * 4_294_967_296 + left as u64 * 65_536),
            Some(Label::Numbered(right)) => Some(
                (3 * operator + 3) * 4_294_967_296 + left as u64 * 65_536 + right as u64,
            ),
            Some(Label::Plain(_)) => None,
        },
    }
}

/// The item set of a kid, by what was read of a numbered one.
pub fn kid_of<'a>(
    label: Option<Label>,
    read: &'a Option<Items>,
    plain: &'a [Items],
) -> Option<&'a Items>
    ensures { option_copied result ≡ kid_chosen label read.now plain.now }
{
    match label {
        None => None,
        Some(Label::Numbered(_)) => read.as_ref(),
        Some(Label::Plain(place)) => plain.get(place as usize),
    }
}

impl<'r> Hand<'r> {
    /// Reads the item set of a numbered kid.
    pub fn read_kid<J: Doing>(
        &mut self,
        alloc: Global,
        label: Option<Label>,
    ) -> Result<Option<Items>, NoMemory>
        requires readable { IsReadable self.old.seat.me.0 label }
        ensures grown { Grown J.asks self.old.seat.me.0 self.new.seat.me.0 }
        ensures own { KeepsOwn self.old.seat.me.0 self.new.seat.me.0 }
        ensures same { self.new.rows ≡ self.old.rows }
        ensures read { IfOk result (λ o. o ≡ kid_read self.old.seat.me.0 label) }
    {
        match label {
            Some(Label::Numbered(number)) => {
                let items = self.read_items::<J>(alloc, number as u64)?;
                Ok(Some(items))
            }
            _ => Ok(None),
        }
    }

    /// Reads the item sets of numbered kids.
    pub fn read_kids<J: Doing>(
        &mut self,
        alloc: Global,
        kids: (Option<Label>, Option<Label>),
    ) -> Result<(Option<Items>, Option<Items>), NoMemory>
        requires readable { IsReadable self.old.seat.me.0 kids.0 × IsReadable self.old.seat.me.0 kids.1 }
        ensures grown { Grown J.asks self.old.seat.me.0 self.new.seat.me.0 }
        ensures own { KeepsOwn self.old.seat.me.0 self.new.seat.me.0 }
        ensures same { self.new.rows ≡ self.old.rows }
        ensures read { IfOk result (λ o. (o.0 ≡ kid_read self.old.seat.me.0 kids.0) × (o.1 ≡ kid_read self.old.seat.me.0 kids.1)) }
    {
        let first = self.read_kid::<J>(alloc, kids.0)?;
        let second = self.read_kid::<J>(alloc, kids.1)?;
        Ok((first, second))
    }
}
