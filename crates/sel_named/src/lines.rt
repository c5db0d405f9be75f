//! The temporaries that the lines of a text name.
ghost use Rattle.std.specs.Prelude.{◌≡◌, ◌++◌, ◌∷◌, [], IfOk, OnOk, max, map};
ghost use Rattle.sel_grammar.specs.declared.emission.Emitted.TheVariants.{Byte, Temporary};
ghost use Rattle.sel_grammar.specs.Expansions.{Text as AnyText};
ghost use Rattle.sel_expand.specs.Pieces.{piece_text, pieces_text};
ghost use Rattle.sel_named.specs.TextLines.{temps_by_line, temps_of};
ghost use Rattle.sel_named.specs.Cutting.{all_lines};

use sel_base::{List, NoMemory};
use sel_expand::Piece;
use std::alloc::Global;
use std::mem;

/// The lines that have ended, and the temporaries of the one behind them. That is begun where anything
/// stands behind the last line end.
#[derive(Debug, Drop)]
struct LineCutter {
    ended: Vec<List<u32>>,
    temps: Vec<u32>,
    begun: bool,
}

impl LineCutter {
    fn new(alloc: Global) -> LineCutter
        ensures { (text : AnyText) → all_lines result text ≡ temps_by_line text }
    {
        LineCutter {
            ended: Vec::new(alloc),
            temps: Vec::new(alloc),
            begun: false,
        }
    }

    fn put_byte(&mut self, alloc: Global, byte: u8) -> Result<(), NoMemory>
        ensures { OnOk result ((rest : AnyText) → all_lines self.new rest ≡ all_lines self.old (Byte byte ∷ rest)) }
    {
        if byte == b'\n' {
            let line = mem::replace(&mut self.temps, Vec::new(alloc));
            self.ended.push(List::from_vec(line))?;
            self.begun = false;
        } else {
            self.begun = true;
        }
        Ok(())
    }

    fn put_bytes(&mut self, alloc: Global, bytes: &[u8]) -> Result<(), NoMemory>
        ensures { OnOk result ((rest : AnyText) → all_lines self.new rest ≡ all_lines self.old (map Byte bytes.now ++ rest)) }
    {
        'bytes: for byte in bytes {
            self.put_byte(alloc, *byte)?;
        }
        Ok(())
    }

    fn put_temp(&mut self, temp: u32) -> Result<(), NoMemory>
        ensures { OnOk result ((rest : AnyText) → all_lines self.new rest ≡ all_lines self.old (Temporary temp ∷ rest)) }
    {
        self.temps.push(temp)?;
        self.begun = true;
        Ok(())
    }

    fn put_piece(&mut self, alloc: Global, piece: &Piece) -> Result<(), NoMemory>
        ensures { OnOk result ((rest : AnyText) → all_lines self.new rest ≡ all_lines self.old (piece_text piece.now ++ rest)) }
    {
        match piece {
            Piece::Text(bytes) => self.put_bytes(alloc, bytes.as_slice()),
            Piece::Temp(temp) => self.put_temp(*temp),
        }
    }

    fn into_lines(self) -> Result<Vec<List<u32>>, NoMemory>
        ensures { IfOk result (λ lines. lines.items ≡ all_lines self []) }
    {
        let LineCutter {
            mut ended,
            temps,
            begun,
        } = self;
        if begun {
            ended.push(List::from_vec(temps))?;
        }
        Ok(ended)
    }
}

/// For each line of a text in pieces the temporaries that it names.
pub fn temps_by_line(alloc: Global, pieces: &[Piece]) -> Result<Vec<List<u32>>, NoMemory>
    ensures { IfOk result (λ lines. lines.items ≡ temps_by_line (pieces_text pieces.now)) }
{
    let mut cutter = LineCutter::new(alloc);
    'pieces: for piece in pieces {
        cutter.put_piece(alloc, piece)?;
    }
    cutter.into_lines()
}

/// The greatest of the temporary that the piece is and this number.
fn greater(piece: &Piece, most: u32) -> u32
    ensures { result ≡ max (temps_of (piece_text piece.now)) most }
{
    match piece {
        Piece::Text(_) => most,
        Piece::Temp(temp) => most.max(*temp),
    }
}

/// How many temporaries a text in pieces has: the greatest number of one, and 0 where there is none.
pub fn temps_of(pieces: &[Piece]) -> u32
    ensures { result ≡ temps_of (pieces_text pieces.now) }
{
    let mut most = 0;
    'pieces: for piece in pieces {
        most = greater(piece, most);
    }
    most
}
