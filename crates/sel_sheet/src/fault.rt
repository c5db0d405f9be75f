// Why a text has no rows.
use sel_base::NoMemory;
use std::alloc::{AllocError, AllocFailed};

/// Why a text is no text of rows.
#[derive(Clone, Copy, Debug, PartialEq, Eq)]
pub enum SheetFault {
    /// The line of this number, counted from 0, is none that may stand there.
    Line(usize),
    NoMemory,
}

impl From<NoMemory> for SheetFault {
    fn from(_: NoMemory) -> SheetFault {
        SheetFault::NoMemory
    }
}

impl From<AllocError> for SheetFault {
    fn from(_: AllocError) -> SheetFault {
        SheetFault::NoMemory
    }
}

impl<T: Drop> From<AllocFailed<T>> for SheetFault {
    fn from(_: AllocFailed<T>) -> SheetFault {
        SheetFault::NoMemory
    }
}
