//! A text with the names of registers.
ghost use Rattle.std.specs.Prelude.{◌≡◌, ◌++◌, [], IfOk, OnOk, map, option_map, option_and_then, unwrap_or, slice_get};
ghost use Rattle.sel_expand.specs.Pieces.{piece_text, pieces_text};
ghost use Rattle.sel_regs.specs.Scans.{register_of};
ghost use Rattle.sel_named.specs.NamedTexts.{bytes_by_name};

use sel_base::{List, NoMemory};
use sel_expand::Piece;
use std::alloc::Global;

/// The name of a temporary's register, where it has one.
fn register_name<'a>(names: &[&'a str], registers: &[u32], temp: u32) -> Option<&'a str>
    ensures { option_map (λ name. name.now) result ≡ option_and_then (slice_get (map (λ name. name.now) names.now)) (register_of registers.now temp) }
{
    let index = temp.checked_sub(1)?;
    let register = registers.get(index as usize)?;
    names.get(*register as usize).copied()
}

fn put_piece(
    names: &[&str],
    registers: &[u32],
    piece: &Piece,
    bytes: &mut Vec<u8>,
) -> Result<(), NoMemory>
    ensures { OnOk result (bytes.new.items ≡ bytes.old.items ++ bytes_by_name (map (λ name. name.now) names.now) registers.now (piece_text piece.now)) }
{
    match piece {
        Piece::Text(text) => bytes.extend_from_slice(text.as_slice())?,
        Piece::Temp(temp) => {
            if let Some(name) = register_name(names, registers, *temp) {
                bytes.extend_from_slice(name.as_bytes())?;
            }
        }
    }
    Ok(())
}

/// The text of the pieces with the name of its register for each temporary. These are the registers of
/// the temporaries from 1 on.
pub fn bytes_by_name(
    alloc: Global,
    names: &[&str],
    registers: &[u32],
    pieces: &[Piece],
) -> Result<List<u8>, NoMemory>
    ensures { IfOk result (λ bytes. bytes ≡ bytes_by_name (map (λ name. name.now) names.now) registers.now (pieces_text pieces.now)) }
{
    let mut bytes = Vec::new(alloc);
    'pieces: for piece in pieces {
        put_piece(names, registers, piece, &mut bytes)?;
    }
    Ok(List::from_vec(bytes))
}
