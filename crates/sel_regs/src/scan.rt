//! The scan of the lines: each temporary gets the lowest register that is free.
ghost use Rattle.std.specs.Prelude.{◌≡◌, ◌+◌, ◌<◌, ◌^◌, ℕ, [], ◌∷◌, IfOk, Some, length, slice_get};
ghost use Rattle.sel_regs.specs.Living.{AreLives};
ghost use Rattle.sel_regs.specs.Beginning.{AreBegun};
ghost use Rattle.sel_regs.specs.Scanning.{AreTaken, AreReleased, EndTaken, IsScanned};
ghost use Rattle.sel_regs.specs.declared.lives.Life.{Life};

use crate::free::Free;
use crate::lives::Life;
use sel_base::{List, NoMemory};
use std::alloc::Global;

/// The register of each temporary, and how many different ones these are.
#[derive(Debug, Drop)]
pub struct Scan {
    pub registers: Vec<u32>,
    pub needs: u32,
}

/// Each of these temporaries takes the next register.
fn take_all(begun: &[u32], registers: &mut [u32], free: &mut Free)
    requires room { free.old.fresh + length begun.now < 2 ^ 32 }
    requires within { (j i : ℕ) → slice_get begun.now j ≡ Some i → i < length registers.old }
    ensures { AreTaken begun.now registers.old free.old registers.new free.new }
{
    'begun: for index in begun {
        registers[*index as usize] = free.take();
    }
}

/// The temporary gives its register back where its last line is the one before `end`.
fn release(
    temp: u32,
    end: usize,
    lives: &[Life],
    registers: &[u32],
    free: &mut Free,
) -> Result<(), NoMemory>
    requires long { length registers.now ≡ length lives.now }
    requires taken { EndTaken lives.now registers.now end free.old }
    ensures { IfOk result (λ _. AreReleased (temp ∷ []) lives.now registers.now end free.old free.new) }
{
    if let Some(index) = temp.checked_sub(1) {
        let index = index as usize;
        if index < lives.len() && lives[index].end == end {
            free.release(registers[index])?;
        }
    }
    Ok(())
}

/// Each temporary of which the line is the last gives its register back.
fn release_all(
    line: &[u32],
    end: usize,
    lives: &[Life],
    registers: &[u32],
    free: &mut Free,
) -> Result<(), NoMemory>
    requires long { length registers.now ≡ length lives.now }
    requires taken { EndTaken lives.now registers.now end free.old }
    ensures { IfOk result (λ _. AreReleased line.now lives.now registers.now end free.old free.new) }
{
    'names: for temp in line {
        release(*temp, end, lives, registers, free)?;
    }
    Ok(())
}

/// Goes over the lines. A register is free again from the line behind the last of its temporary.
pub fn scan_lines(
    alloc: Global,
    lines: &[List<u32>],
    lives: &[Life],
    begun: &[List<u32>],
) -> Result<Scan, NoMemory>
    requires few { length lives.now < 2 ^ 32 }
    requires lives { AreLives lines.now (length lives.now) lives.now }
    requires begun { AreBegun lives.now (length lives.now) (length lines.now) begun.now }
    ensures { IfOk result (λ scan. IsScanned lines.now (length lives.now) scan.registers.items scan.needs) }
{
    let mut registers = vec![in alloc; 0; lives.len()]?;
    let mut free = Free::new(alloc);
    'lines: for (at, line) in lines.iter().enumerate() {
        take_all(begun[at].as_slice(), &mut registers, &mut free);
        release_all(line.as_slice(), at + 1, lives, &registers, &mut free)?;
    }
    let needs = free.taken();
    Ok(Scan { registers, needs })
}
