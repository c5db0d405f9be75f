// A row, and how its lines change it.
use crate::escapes::put_escaped;
use crate::fault::SheetFault;
use crate::words::numbers_of;
use sel_base::{NoMemory, Shelf, ShelfFault};
use std::alloc::Global;

/// A file by its name.
#[derive(Drop)]
pub struct File<'t> {
    pub name: &'t str,
    pub text: Vec<u8>,
}

// Where lines of content go.
#[derive(Clone, Copy)]
enum Place {
    Nowhere,
    File(usize),
    Out,
    Err,
}

/// What is called, and what is wanted of it.
#[derive(Drop)]
pub struct Row<'t> {
    /// The number of its first line, counted from 0, and its name.
    pub line: usize,
    pub name: &'t str,
    pub call: &'t str,
    pub words: &'t str,
    /// Words whose answer is the same.
    pub beside: Option<&'t str>,
    pub files: Vec<File<'t>>,
    pub out: Vec<u8>,
    /// What is wanted on `out` is a front of what comes.
    pub is_front: bool,
    pub err: Vec<u8>,
    pub status: u64,
    /// The reads and the puts on `out` that fail, by their numbers from 1.
    pub reads: Vec<u64>,
    pub puts: Vec<u64>,
    /// The most bytes that a put takes.
    pub piece: usize,
    /// The part of the answer that isn't as wanted: the row shows that a difference is told.
    pub differs: &'t str,
    // The file to which lines go where no other place is named.
    into: &'t str,
    place: Place,
}

const PIECE: usize = 100;

/// The greatest length of a file that lies beside a sheet, in bytes.
const LIMIT: usize = 16_777_216;

impl<'t> Row<'t> {
    pub fn new(alloc: Global, line: usize, name: &'t str) -> Row<'t> {
        Row {
            line,
            name,
            call: "",
            words: "",
            beside: None,
            files: Vec::new(alloc),
            out: Vec::new(alloc),
            is_front: false,
            err: Vec::new(alloc),
            status: 0,
            reads: Vec::new(alloc),
            puts: Vec::new(alloc),
            piece: PIECE,
            differs: "",
            into: "",
            place: Place::Nowhere,
        }
    }

    /// The text of the file of this name.
    pub fn file(&self, name: &str) -> Option<&[u8]> {
        for file in self.files.as_slice() {
            if file.name == name {
                return Some(file.text.as_slice());
            }
        }
        None
    }

    fn place_of(&self, name: &str) -> Option<usize> {
        for (at, file) in self.files.as_slice().iter().enumerate() {
            if file.name == name {
                return Some(at);
            }
        }
        None
    }

    // The file of this name, which is made where there is none.
    fn at_file(&mut self, alloc: Global, name: &'t str) -> Result<usize, NoMemory> {
        if let Some(at) = self.place_of(name) {
            return Ok(at);
        }
        let text = Vec::new(alloc);
        let at = self.files.len();
        self.files.push(File { name, text })?;
        Ok(at)
    }

    /// Lines of content go where the line `into` says from here on.
    pub fn begin(&mut self, alloc: Global) -> Result<(), NoMemory> {
        self.place = if self.into.is_empty() {
            Place::Nowhere
        } else {
            Place::File(self.at_file(alloc, self.into)?)
        };
        Ok(())
    }

    // The text to which lines of content go.
    fn content(&mut self) -> Option<&mut Vec<u8>> {
        match self.place {
            Place::Nowhere => None,
            Place::File(at) => match self.files.as_mut_slice().get_mut(at) {
                Some(file) => Some(&mut file.text),
                None => None,
            },
            Place::Out => Some(&mut self.out),
            Place::Err => Some(&mut self.err),
        }
    }

    fn take_content(&mut self, written: &str) -> Result<bool, NoMemory> {
        let Some(text) = self.content() else {
            return Ok(false);
        };
        text.extend_from_slice(written.as_bytes())?;
        text.push(b'\n')?;
        Ok(true)
    }

    fn take_piece(&mut self, written: &str) -> Result<bool, NoMemory> {
        let Some(text) = self.content() else {
            return Ok(false);
        };
        put_escaped(text, written)
    }

    // A number, and the piece that comes so often.
    fn take_pieces(&mut self, alloc: Global, written: &str) -> Result<bool, NoMemory> {
        let (Some(text), Some((count, written))) = (self.content(), written.split_once(' ')) else {
            return Ok(false);
        };
        let Ok(count) = count.parse::<u32>() else {
            return Ok(false);
        };
        let mut piece = Vec::new(alloc);
        let is_good = put_escaped(&mut piece, written)?;
        for _ in 0..count {
            text.extend_from_slice(piece.as_slice())?;
        }
        Ok(is_good)
    }

    fn take_file(&mut self, alloc: Global, name: &'t str) -> Result<bool, NoMemory> {
        let at = self.at_file(alloc, name)?;
        if let Some(file) = self.files.as_mut_slice().get_mut(at) {
            file.text.clear();
        }
        self.place = Place::File(at);
        Ok(true)
    }

    // The bytes of a file that lies beside the sheet.
    fn take_from<S: Shelf>(
        &mut self,
        alloc: Global,
        shelf: &mut S,
        name: &str,
    ) -> Result<bool, NoMemory> {
        let Some(text) = self.content() else {
            return Ok(false);
        };
        match shelf.read(alloc, name, LIMIT) {
            Ok(bytes) => {
                text.extend_from_slice(bytes.as_slice())?;
                Ok(true)
            }
            Err(ShelfFault::NoMemory) => Err(NoMemory),
            Err(ShelfFault::Failed | ShelfFault::TooBig) => Ok(false),
        }
    }

    fn take_status(&mut self, number: &str) -> bool {
        match number.parse::<u64>() {
            Ok(number) => {
                self.status = number;
                true
            }
            Err(_) => false,
        }
    }

    fn take_piece_size(&mut self, number: &str) -> bool {
        match number.parse::<u32>() {
            Ok(number) => {
                self.piece = number as usize;
                number > 0
            }
            Err(_) => false,
        }
    }

    fn take_reads(&mut self, alloc: Global, numbers: &str) -> Result<bool, NoMemory> {
        let Some(numbers) = numbers_of(alloc, numbers)? else {
            return Ok(false);
        };
        self.reads = numbers;
        Ok(true)
    }

    fn take_puts(&mut self, alloc: Global, numbers: &str) -> Result<bool, NoMemory> {
        let Some(numbers) = numbers_of(alloc, numbers)? else {
            return Ok(false);
        };
        self.puts = numbers;
        Ok(true)
    }

    // A line that begins with a word.
    fn take_words<S: Shelf>(
        &mut self,
        alloc: Global,
        shelf: &mut S,
        word: &str,
        rest: &'t str,
    ) -> Result<bool, NoMemory> {
        match word {
            "call" => self.call = rest,
            "words" => self.words = rest,
            "beside" => self.beside = Some(rest),
            "into" => self.into = rest,
            "differs" => self.differs = rest,
            "front" => self.is_front = true,
            "out" => {
                self.out.clear();
                self.place = Place::Out;
            }
            "err" => {
                self.err.clear();
                self.place = Place::Err;
            }
            "file" => return self.take_file(alloc, rest),
            "from" => return self.take_from(alloc, shelf, rest),
            "status" => return Ok(self.take_status(rest)),
            "piece" => return Ok(self.take_piece_size(rest)),
            "reads" => return self.take_reads(alloc, rest),
            "puts" => return self.take_puts(alloc, rest),
            _ => return Ok(false),
        }
        Ok(true)
    }

    // The only line on `out`.
    fn take_answer(&mut self, written: &str) -> Result<bool, NoMemory> {
        self.out.clear();
        self.out.extend_from_slice(written.as_bytes())?;
        self.out.push(b'\n')?;
        Ok(true)
    }

    // The only line on the error stream.
    fn take_refusal(&mut self, written: &str) -> Result<bool, NoMemory> {
        self.err.clear();
        self.err.extend_from_slice(written.as_bytes())?;
        self.err.push(b'\n')?;
        Ok(true)
    }

    fn takes<S: Shelf>(
        &mut self,
        alloc: Global,
        shelf: &mut S,
        line: &'t str,
    ) -> Result<bool, NoMemory> {
        if line.is_empty() || line.starts_with('#') {
            return Ok(true);
        }
        if let Some(written) = line.strip_prefix('|') {
            return self.take_content(written);
        }
        if let Some(written) = line.strip_prefix('+') {
            return self.take_piece(written);
        }
        if let Some(written) = line.strip_prefix('*') {
            return self.take_pieces(alloc, written);
        }
        if let Some(written) = line.strip_prefix('=') {
            return self.take_answer(written);
        }
        if let Some(written) = line.strip_prefix('!') {
            return self.take_refusal(written);
        }
        match line.split_once(' ') {
            Some((word, rest)) => self.take_words(alloc, shelf, word, rest),
            None => self.take_words(alloc, shelf, line, ""),
        }
    }

    /// Takes the line of this number.
    pub fn take_line<S: Shelf>(
        &mut self,
        alloc: Global,
        shelf: &mut S,
        at: usize,
        line: &'t str,
    ) -> Result<(), SheetFault> {
        if self.takes(alloc, shelf, line)? {
            Ok(())
        } else {
            Err(SheetFault::Line(at))
        }
    }
}
