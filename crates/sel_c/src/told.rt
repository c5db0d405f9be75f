// What a call tells.
ghost use Rattle.std.specs.Prelude.{◌≡◌};
ghost use Rattle.sel_c.specs.Codes.{told_code, told_fault, told_cost};

use sel_base::Pair;

pub const DONE: u32 = 0;

pub const NO_COVER: u32 = 1;

pub const TOO_LONG: u32 = 2;

pub const SHORT: u32 = 3;

pub const BAD_GRAMMAR: u32 = 4;

pub const BAD_FOREST: u32 = 5;

pub const NOT_ONE: u32 = 7;

pub const TOO_BIG: u32 = 8;

pub const NO_MEMORY: u32 = 9;

pub const IS_OPEN: u32 = 10;

pub const IS_CLOSED: u32 = 11;

/// What a call tells: its code, and what belongs to it. The rest is 0.
#[repr(C)]
#[derive(Clone, Copy)]
pub struct Told {
    pub code: u32,
    /// The kind of a fault.
    pub kind: u32,
    /// The place of a fault in a text, from 1; the column counts bytes.
    pub line: u32,
    pub column: u32,
    /// The place of a fault in an array, from 0.
    pub place: usize,
    /// The cost of the best derivation, and what breaks its ties.
    pub cost: u64,
    pub ties: i64,
    /// How many items were written, or are wanted.
    pub needs: usize,
}

/// What is told of a rule: its external number, or the greatest number of 32 bits where it has none, and its
/// place in the grammar's text.
#[repr(C)]
#[derive(Clone, Copy)]
pub struct ToldRule {
    pub external: u32,
    pub line: u32,
    pub column: u32,
}

impl Told {
    pub fn of_code(code: u32) -> Told
        ensures { result ≡ told_code code }
    {
        Told {
            code,
            kind: 0,
            line: 0,
            column: 0,
            place: 0,
            cost: 0,
            ties: 0,
            needs: 0,
        }
    }

    pub fn of_fault(code: u32, kind: u8, line: u32, column: u32) -> Told
        ensures { result ≡ told_fault code kind line column }
    {
        Told {
            code,
            kind: kind as u32,
            line,
            column,
            place: 0,
            cost: 0,
            ties: 0,
            needs: 0,
        }
    }

    pub fn of_cost(code: u32, cost: Pair, needs: usize) -> Told
        ensures { result ≡ told_cost code cost needs }
    {
        Told {
            code,
            kind: 0,
            line: 0,
            column: 0,
            place: 0,
            cost: cost.first,
            ties: cost.second,
            needs,
        }
    }
}
