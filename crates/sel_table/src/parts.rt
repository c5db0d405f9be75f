//! Texts cut at separators.

ghost use Rattle.std.specs.Prelude.{◌≡◌, ◌++◌};
ghost use Rattle.sel_table.specs.LineReading.{Lacks, with_rest};

use memchr::memchr;
use sel_base::text::behind;

/// What stands before the first separator, and what stands behind it, or the whole text where there is
/// none.
#[derive(Clone, Copy, Debug)]
pub struct Cut<'a> {
    pub part: &'a [u8],
    pub rest: Option<&'a [u8]>,
}

/// The first part of a text that is cut at each separator.
pub fn first_part(bytes: &[u8], separator: u8) -> Cut<'_>
    ensures lacks { Lacks separator result.part.now }
    ensures whole { bytes.now ≡ result.part.now ++ with_rest separator result.rest }
{
    match memchr(separator, bytes) {
        Some(at) => Cut {
            part: &bytes[..at],
            rest: Some(behind(bytes, at + 1)),
        },
        None => Cut {
            part: bytes,
            rest: None,
        },
    }
}
