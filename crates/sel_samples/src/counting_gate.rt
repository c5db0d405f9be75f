// A gate that counts who passes.
use sel_base::{Gate, NoMemory};
use std::alloc::Global;
use std::sync::atomic::{AtomicU64, Ordering};

/// How often it was entered and left, and the sum of the trees' positions, each counted from 1, at both.
#[derive(Drop)]
pub struct CountingGate {
    entered: AtomicU64,
    left: AtomicU64,
    entered_at: AtomicU64,
    left_at: AtomicU64,
}

impl CountingGate {
    pub fn new() -> CountingGate {
        CountingGate {
            entered: AtomicU64::new(0),
            left: AtomicU64::new(0),
            entered_at: AtomicU64::new(0),
            left_at: AtomicU64::new(0),
        }
    }

    /// What was counted, a line for the entering and one for the leaving.
    pub fn told(&self, alloc: Global) -> Result<String, NoMemory> {
        let entered = self.entered.load(Ordering::SeqCst);
        let entered_at = self.entered_at.load(Ordering::SeqCst);
        let left = self.left.load(Ordering::SeqCst);
        let left_at = self.left_at.load(Ordering::SeqCst);
        Ok(format!(in alloc;
            "entered {entered} positions {entered_at}\nleft {left} positions {left_at}\n"
        )?)
    }
}

fn place_of(tree: u32) -> u64 {
    tree as u64 + 1
}

impl Gate for CountingGate {
    fn enter(&self, _worker: u32, tree: u32) {
        let _ = self.entered.fetch_add(1, Ordering::SeqCst);
        let _ = self.entered_at.fetch_add(place_of(tree), Ordering::SeqCst);
    }

    fn leave(&self, _worker: u32, tree: u32) {
        let _ = self.left.fetch_add(1, Ordering::SeqCst);
        let _ = self.left_at.fetch_add(place_of(tree), Ordering::SeqCst);
    }
}
