//! A text cut into runs of bytes and temporaries.
ghost use Rattle.std.specs.Prelude.{◌≡◌, ◌++◌, ◌<◌, ◌^◌, ℕ, [], ◌∷◌, IfOk, map};
ghost use Rattle.sel_grammar.specs.declared.emission.Emitted.TheVariants.{Byte, Temporary};
ghost use Rattle.sel_expand.specs.Pieces.{pieces_text, AreNumbered};

use sel_base::{List, NoMemory};
use sel_grammar::Emitted;
use std::alloc::Global;
use std::mem;

/// A part of a text.
#[derive(Debug, Drop)]
pub enum Piece {
    /// Bytes that are no temporary's name.
    Text(List<u8>),
    /// A temporary, from 1 on. As text it is `t` and its number.
    Temp(u32),
}

/// Puts the bytes behind the pieces, where there are any.
fn put_run(alloc: Global, bytes: &mut Vec<u8>, pieces: &mut Vec<Piece>) -> Result<(), NoMemory>
    ensures bytes { IfOk result (λ _. bytes.new.items ≡ []) }
    ensures pieces { IfOk result (λ _. pieces_text pieces.new.items ≡ pieces_text pieces.old.items ++ map Byte bytes.old.items) }
{
    if bytes.is_empty() {
        return Ok(());
    }
    let run = mem::replace(bytes, Vec::new(alloc));
    pieces.push(Piece::Text(List::from_vec(run)))?;
    Ok(())
}

fn put(
    alloc: Global,
    emitted: Emitted,
    bytes: &mut Vec<u8>,
    pieces: &mut Vec<Piece>,
) -> Result<(), NoMemory>
    requires { (k : ℕ) → emitted ≡ Temporary k → k < 2 ^ 32 }
    ensures { IfOk result (λ _. pieces_text pieces.new.items ++ map Byte bytes.new.items ≡ (pieces_text pieces.old.items ++ map Byte bytes.old.items) ++ emitted ∷ []) }
{
    match emitted {
        Emitted::Byte(byte) => {
            bytes.push(byte)?;
            Ok(())
        }
        Emitted::Temporary(number) => {
            put_run(alloc, bytes, pieces)?;
            pieces.push(Piece::Temp(number as u32))?;
            Ok(())
        }
    }
}

/// The pieces of a text. The bytes between two temporaries are one.
pub fn cut(alloc: Global, text: &[Emitted]) -> Result<List<Piece>, NoMemory>
    requires { AreNumbered text.now }
    ensures { IfOk result (λ pieces. pieces_text pieces ≡ text.now) }
{
    let mut bytes = Vec::new(alloc);
    let mut pieces = Vec::new(alloc);
    'text: for emitted in text {
        put(alloc, *emitted, &mut bytes, &mut pieces)?;
    }
    put_run(alloc, &mut bytes, &mut pieces)?;
    Ok(List::from_vec(pieces))
}
