//! A reader of tables, line by line.

ghost use Rattle.std.specs.Prelude.{◌≡◌, ◌∷◌, ◌<◌, ◌+◌, [], List, All, IfErr, IfOk, length, map};
ghost use Rattle.std.specs.Fmt.{decimal};
ghost use Rattle.sel_full.specs.Forms.{IsFormState};
ghost use Rattle.sel_full.specs.TableTexts.{state_text};
ghost use Rattle.sel_table.specs.declared.refusal.LoadRefusal.TheVariants as refusal;
ghost use Rattle.sel_table.specs.LineReading.{IsHead, IsNumber, first_line, Took, IsTaken, IsEarlyEnd, IsUncut};
ghost use Rattle.sel_table.specs.Loading.{form_fault};

use crate::entries::{Head, key_number, read_head, state};
use crate::kinds::FORM;
use crate::parts::first_part;
use crate::refusal::{LoadFault, LoadRefusal};
use sel_base::List;
use sel_items::Items;
use sel_normal::Normal;
use std::alloc::Global;

/// What is left of a text, and how many lines were taken from it.
#[derive(Debug, Drop)]
pub struct Lines<'a> {
    pub rest: &'a [u8],
    pub taken: u32,
}

/// A line with which no text of the form goes on.
pub fn wrong(line: u32) -> LoadRefusal
    ensures { result ≡ refusal.Fault (record { kind = form_fault; line = line }) }
{
    LoadRefusal::Fault(LoadFault { kind: FORM, line })
}

impl<'a> Lines<'a> {
    /// Takes the next line, without its line feed.
    fn take(&mut self) -> Result<&'a [u8], LoadRefusal>
        requires room { self.old.taken + length self.old.rest.now < 4294967295 }
        ensures line { IfOk result (λ line. IsTaken self.old self.new line.now) }
        ensures fault { IfErr result (IsUncut self.old) }
    {
        let cut = first_part(self.rest, b'\n');
        let Some(behind) = cut.rest else {
            return Err(wrong(self.taken + 1));
        };
        self.rest = behind;
        self.taken += 1;
        Ok(cut.part)
    }

    /// Takes the first line of a table.
    pub fn head(&mut self, normal: &Normal) -> Result<Head, LoadRefusal>
        requires room { self.old.taken + length self.old.rest.now < 4294967295 }
        ensures is { IfOk result (IsHead normal.now) }
        ensures line { IfOk result (λ head. Took self.old self.new (first_line head ∷ [])) }
        ensures fault { IfErr result (IsEarlyEnd (IsHead normal.now) first_line self.old 1) }
    {
        let line = match self.take() {
            Ok(line) => line,
            Err(refusal) => return Err(refusal),
        };
        match read_head(normal, line) {
            Some(head) => Ok(head),
            None => Err(wrong(self.taken)),
        }
    }

    /// Takes the line of a state.
    fn state(&mut self, alloc: Global, normal: &Normal) -> Result<Items, LoadRefusal>
        requires room { self.old.taken + length self.old.rest.now < 4294967295 }
        ensures is { IfOk result (IsFormState normal.now) }
        ensures line { IfOk result (λ items. Took self.old self.new (state_text items ∷ [])) }
        ensures fault { IfErr result (IsEarlyEnd (IsFormState normal.now) state_text self.old 1) }
    {
        let line = match self.take() {
            Ok(line) => line,
            Err(refusal) => return Err(refusal),
        };
        normal.is_standing();
        match state(alloc, normal, line)? {
            Some(items) => Ok(items),
            None => Err(wrong(self.taken)),
        }
    }

    /// Takes the lines of so many states.
    pub fn states(
        &mut self,
        alloc: Global,
        normal: &Normal,
        count: usize,
    ) -> Result<List<Items>, LoadRefusal>
        requires room { self.old.taken + length self.old.rest.now < 4294967295 }
        ensures count { IfOk result (λ states. length states ≡ count) }
        ensures are { IfOk result (All (IsFormState normal.now)) }
        ensures lines { IfOk result (λ states. Took self.old self.new (map state_text states)) }
        ensures fault { IfErr result (IsEarlyEnd (IsFormState normal.now) state_text self.old count) }
    {
        let mut states = List::new(alloc);
        'lines: for _line in 0..count {
            let items = match self.state(alloc, normal) {
                Ok(items) => items,
                Err(refusal) => return Err(refusal),
            };
            states.push(items)?;
        }
        Ok(states)
    }

    /// Takes the line of a number.
    fn number(&mut self) -> Result<u16, LoadRefusal>
        requires room { self.old.taken + length self.old.rest.now < 4294967295 }
        ensures is { IfOk result IsNumber }
        ensures line { IfOk result (λ number. Took self.old self.new (decimal number ∷ [])) }
        ensures fault { IfErr result (IsEarlyEnd IsNumber decimal self.old 1) }
    {
        let line = match self.take() {
            Ok(line) => line,
            Err(refusal) => return Err(refusal),
        };
        match key_number(line) {
            Some(number) => Ok(number),
            None => Err(wrong(self.taken)),
        }
    }

    /// Takes the lines of so many numbers.
    pub fn numbers(&mut self, alloc: Global, count: usize) -> Result<List<u16>, LoadRefusal>
        requires room { self.old.taken + length self.old.rest.now < 4294967295 }
        ensures count { IfOk result (λ numbers. length numbers ≡ count) }
        ensures are { IfOk result (All IsNumber) }
        ensures lines { IfOk result (λ numbers. Took self.old self.new (map decimal numbers)) }
        ensures fault { IfErr result (IsEarlyEnd IsNumber decimal self.old count) }
    {
        let mut numbers = List::new(alloc);
        'lines: for _line in 0..count {
            let number = match self.number() {
                Ok(number) => number,
                Err(refusal) => return Err(refusal),
            };
            numbers.push(number)?;
        }
        Ok(numbers)
    }
}
