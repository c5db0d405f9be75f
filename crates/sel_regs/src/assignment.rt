ghost use Rattle.std.specs.Prelude.{◌≡◌, ◌≤◌, ◌<◌, ℕ, List, Some, IfOk, length};
ghost use Rattle.sel_regs.specs.Lives.{needs};
ghost use Rattle.sel_regs.specs.Scans.{register_of};
ghost use Rattle.sel_regs.specs.Assignments.{IsAssigned};
ghost use Rattle.sel_regs.specs.declared.assignment.Assignment.TheVariants.{Assigned, TooFew};

use crate::begun::begun;
use crate::lives::lives;
use crate::scan::scan_lines;
use sel_base::{List, NoMemory};
use std::alloc::Global;

/// The register of each temporary, or that there are too few registers.
#[derive(Debug, Drop)]
pub enum Assignment {
    /// For each temporary from 1 on the number of its register, from 0.
    Assigned(List<u32>),
    /// How many registers it takes.
    TooFew { needs: u32 },
}

/// Gives registers to the temporaries from 1 to `temps`. A line is the list of those that it names;
/// other numbers are no temporaries. The time is linear in the lines with their names and the
/// temporaries, but for the order of the registers that are free.
pub fn assign(
    alloc: Global,
    lines: &[List<u32>],
    temps: u32,
    registers: u32,
) -> Result<Assignment, NoMemory>
    requires { 1 ≤ registers }
    ensures assigned { IfOk result (λ a. (of : List ℕ) → a ≡ Assigned of → IsAssigned lines.now temps registers of) }
    ensures too_few { IfOk result (λ a. (n : ℕ) → a ≡ TooFew n → (n ≡ needs lines.now temps) × (registers < n)) }
{
    let lives = lives(alloc, lines, temps)?;
    let begun = begun(alloc, &lives, lines.len())?;
    let scan = scan_lines(alloc, lines, &lives, &begun)?;
    if scan.needs > registers {
        return Ok(Assignment::TooFew { needs: scan.needs });
    }
    Ok(Assignment::Assigned(List::from_vec(scan.registers)))
}
