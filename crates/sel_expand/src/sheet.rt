//! What a text is printed on.
ghost use Rattle.std.specs.Prelude.{◌≡◌, ◌++◌, ◌∷◌, ◌≤◌, [], Bool, true, false, length, map, slice_range, IfOk};
ghost use Rattle.sel_grammar.specs.declared.emission.Emitted.TheVariants.{Byte, Temporary};
ghost use Rattle.sel_grammar.specs.Expansions.{Text};
ghost use Rattle.sel_expand.specs.Expanding.{longest_text};
ghost use Rattle.sel_expand.specs.Sheets.{shown, IsOver};

use crate::expansion::LONGEST_TEXT;
use itoa::Buffer;
use sel_base::NoMemory;
use sel_grammar::Emitted;

/// Where a value stands on a sheet.
#[derive(Clone, Copy, Debug, Drop)]
pub struct Span {
    pub start: usize,
    pub end: usize,
}

/// A sheet shows bytes alone, or stands its temporaries apart.
pub trait Sheet {
    ghost use Rattle.std.specs.Prelude.{Bool};
    ghost use Rattle.sel_grammar.specs.Expansions.{Text};

    /// what stands on it
    ghost told: { Self → Text };

    /// whether its temporaries stand apart
    ghost apart: { Bool };

    fn len(&self) -> usize
        ensures { result ≡ length (told self.now) };

    /// Whether more bytes stand on it than a text may have.
    fn is_full(&self) -> bool
        ensures over { result ≡ true → IsOver apart (told self.now) }
        ensures within { result ≡ false → apart ≡ false → length (told self.now) ≤ longest_text };

    fn put_bytes(&mut self, bytes: &[u8]) -> Result<(), NoMemory>
        ensures { IfOk result (λ _. told self.new ≡ told self.old ++ map Byte bytes.now) };

    fn put_temporary(&mut self, number: u64) -> Result<(), NoMemory>
        ensures { IfOk result (λ _. told self.new ≡ told self.old ++ shown apart (Temporary number ∷ [])) };

    /// Puts what stands in the span once more.
    fn put_copy(&mut self, span: Span) -> Result<(), NoMemory>
        ensures { IfOk result (λ _. span.start ≤ span.end → span.end ≤ length (told self.old) → told self.new ≡ told self.old ++ slice_range (told self.old) span.start span.end) };
}

impl Sheet for Vec<u8> {
    ghost told = { λ v. map Byte v.items };

    ghost apart = { false };

    fn len(&self) -> usize {
        self.as_slice().len()
    }

    fn is_full(&self) -> bool {
        self.as_slice().len() as u64 > LONGEST_TEXT
    }

    // Most texts between the kids of a template are short, and put without a call.
    #[inline(always)]
    fn put_bytes(&mut self, bytes: &[u8]) -> Result<(), NoMemory> {
        match bytes {
            [first] => {
                self.push(*first)?;
                Ok(())
            }
            [first, second] => {
                self.extend_from_slice(&[*first, *second])?;
                Ok(())
            }
            [first, second, third, fourth] => {
                self.extend_from_slice(&[*first, *second, *third, *fourth])?;
                Ok(())
            }
            _ => {
                self.extend_from_slice(bytes)?;
                Ok(())
            }
        }
    }

    #[inline(always)]
    fn put_temporary(&mut self, number: u64) -> Result<(), NoMemory> {
        if number < 10 {
            self.extend_from_slice(&[b't', b'0' + number as u8])?;
            return Ok(());
        }
        self.push(b't')?;
        let mut buffer = Buffer::new();
        self.extend_from_slice(buffer.format(number).as_bytes())?;
        Ok(())
    }

    fn put_copy(&mut self, span: Span) -> Result<(), NoMemory> {
        if span.start <= span.end && span.end <= self.as_slice().len() {
            self.extend_from_within(span.start..span.end)?;
        }
        Ok(())
    }
}

impl Sheet for Vec<Emitted> {
    ghost told = { λ v. v.items };

    ghost apart = { true };

    fn len(&self) -> usize {
        self.as_slice().len()
    }

    fn is_full(&self) -> bool {
        false
    }

    fn put_bytes(&mut self, bytes: &[u8]) -> Result<(), NoMemory> {
        'bytes: for byte in bytes {
            self.push(Emitted::Byte(*byte))?;
        }
        Ok(())
    }

    fn put_temporary(&mut self, number: u64) -> Result<(), NoMemory> {
        self.push(Emitted::Temporary(number))?;
        Ok(())
    }

    fn put_copy(&mut self, span: Span) -> Result<(), NoMemory> {
        if span.start <= span.end && span.end <= self.as_slice().len() {
            self.extend_from_within(span.start..span.end)?;
        }
        Ok(())
    }
}
