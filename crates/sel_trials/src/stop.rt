// Why a call gave nothing else.
use sel_base::NoMemory;
use sel_forest::ForestRefusal;
use sel_grammar::GrammarRefusal;
use std::alloc::{AllocError, AllocFailed};

/// Why a call gave nothing else.
#[derive(Clone, Copy)]
pub enum Stop {
    /// A text has a fault of this kind at this line and column.
    Fault(u8, u32, u32),
    /// The row isn't one for this call.
    Unfit(&'static str),
    NoMemory,
}

impl From<NoMemory> for Stop {
    fn from(_: NoMemory) -> Stop {
        Stop::NoMemory
    }
}

impl From<AllocError> for Stop {
    fn from(_: AllocError) -> Stop {
        Stop::NoMemory
    }
}

impl<T: Drop> From<AllocFailed<T>> for Stop {
    fn from(_: AllocFailed<T>) -> Stop {
        Stop::NoMemory
    }
}

impl From<GrammarRefusal> for Stop {
    fn from(refusal: GrammarRefusal) -> Stop {
        match refusal {
            GrammarRefusal::Fault(fault) => Stop::Fault(fault.kind, fault.line, fault.column),
            GrammarRefusal::NoMemory => Stop::NoMemory,
        }
    }
}

impl From<ForestRefusal> for Stop {
    fn from(refusal: ForestRefusal) -> Stop {
        match refusal {
            ForestRefusal::Fault(fault) => Stop::Fault(fault.kind, fault.line, fault.column),
            ForestRefusal::NoMemory => Stop::NoMemory,
        }
    }
}
