//! On which lines temporaries are live. A temporary's index is its number less one.
ghost use Rattle.std.specs.Prelude.{◌≡◌, ◌+◌, ◌<◌, ◌^◌, [], ◌∷◌, IfOk};
ghost use Rattle.sel_regs.specs.Living.{with_line_at, IsNoted, AreLives};

use sel_base::{List, NoMemory};
use std::alloc::Global;

/// The first line that names a temporary, and how many lines there are to the last that does. Where
/// none does, `end` is 0.
#[derive(Clone, Copy, Debug, Drop)]
pub struct Life {
    pub first: usize,
    pub end: usize,
}

/// The life of a temporary that the line at `at` names, too.
fn with_line_at(at: usize, life: Life) -> Life
    requires { at + 1 < 2 ^ 64 }
    ensures { result ≡ with_line_at at life }
{
    Life {
        first: if life.end == 0 { at } else { life.first },
        end: at + 1,
    }
}

/// Notes a temporary that the line at `at` names. Other numbers than those of the lives are none.
fn note(lives: &mut [Life], temp: u32, at: usize)
    requires { at + 1 < 2 ^ 64 }
    ensures { IsNoted (temp ∷ []) at lives.old lives.new }
{
    if let Some(index) = temp.checked_sub(1) {
        let index = index as usize;
        if index < lives.len() {
            lives[index] = with_line_at(at, lives[index]);
        }
    }
}

fn note_line(lives: &mut [Life], line: &[u32], at: usize)
    requires { at + 1 < 2 ^ 64 }
    ensures { IsNoted line.now at lives.old lives.new }
{
    'names: for temp in line {
        note(lives, *temp, at);
    }
}

/// The lives of the temporaries from 1 on.
pub fn lives(alloc: Global, lines: &[List<u32>], temps: u32) -> Result<Vec<Life>, NoMemory>
    ensures { IfOk result (λ lives. AreLives lines.now temps lives.items) }
{
    let none = Life { first: 0, end: 0 };
    let mut lives = vec![in alloc; none; temps as usize]?;
    'lines: for (at, line) in lines.iter().enumerate() {
        note_line(&mut lives, line.as_slice(), at);
    }
    Ok(lives)
}
