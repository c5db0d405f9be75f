// What a call gave, beside what is wanted of it.
use crate::row::Row;
use sel_base::NoMemory;
use std::alloc::Global;

/// What a call gave.
#[derive(Drop)]
pub struct Answer {
    pub out: Vec<u8>,
    pub err: Vec<u8>,
    /// Its status by its number.
    pub status: u64,
    /// There was no memory, so that what was put on `out` is a front of what is wanted.
    pub no_memory: bool,
}

impl Answer {
    /// An answer that is these bytes on `out`.
    pub fn of_bytes(alloc: Global, bytes: &[u8]) -> Result<Answer, NoMemory> {
        Ok(Answer {
            out: Vec::from_slice(alloc, bytes)?,
            err: Vec::new(alloc),
            status: 0,
            no_memory: false,
        })
    }

    /// An answer that is this text on `out`.
    pub fn of_text(alloc: Global, text: &str) -> Result<Answer, NoMemory> {
        Answer::of_bytes(alloc, text.as_bytes())
    }

    /// Both are the same.
    pub fn is_same(&self, other: &Answer) -> bool {
        self.status == other.status
            && self.out.as_slice() == other.out.as_slice()
            && self.err.as_slice() == other.err.as_slice()
    }
}

impl<'t> Row<'t> {
    fn has_out(&self, out: &[u8]) -> bool {
        if self.is_front {
            out.starts_with(self.out.as_slice())
        } else {
            out == self.out.as_slice()
        }
    }

    /// The first part of the answer that isn't as wanted.
    pub fn wrong_part(&self, answer: &Answer) -> Option<&'static str> {
        if answer.no_memory {
            let is_front = self.out.as_slice().starts_with(answer.out.as_slice());
            return if is_front { None } else { Some("out") };
        }
        if answer.status != self.status {
            Some("status")
        } else if !self.has_out(answer.out.as_slice()) {
            Some("out")
        } else if answer.err.as_slice() != self.err.as_slice() {
            Some("err")
        } else {
            None
        }
    }

    /// The row tells of the answer what its line `differs` says: nothing, where it has none.
    pub fn is_as_told(&self, answer: &Answer) -> bool {
        self.wrong_part(answer).unwrap_or("") == self.differs
    }
}
