// A gate that holds the first tree until others have left.
use sel_base::Gate;
use std::sync::atomic::{AtomicU64, Ordering};

// So often is looked at most whether enough trees have left.
const MOST_LOOKS: u32 = 200_000_000;

/// The tree at the position 0 is held at its entry until so many trees have left.
#[derive(Drop)]
pub struct HoldingGate {
    until: u64,
    left: AtomicU64,
    given_up: AtomicU64,
}

impl HoldingGate {
    pub fn new(until: u64) -> HoldingGate {
        HoldingGate {
            until,
            left: AtomicU64::new(0),
            given_up: AtomicU64::new(0),
        }
    }

    /// Whether the first tree was let in before enough others had left.
    pub fn was_given_up(&self) -> bool {
        self.given_up.load(Ordering::SeqCst) > 0
    }

    fn hold(&self) {
        for _ in 0..MOST_LOOKS {
            if self.left.load(Ordering::SeqCst) >= self.until {
                return;
            }
        }
        let _ = self.given_up.fetch_add(1, Ordering::SeqCst);
    }
}

impl Gate for HoldingGate {
    fn enter(&self, _worker: u32, tree: u32) {
        if tree == 0 {
            self.hold();
        }
    }

    fn leave(&self, _worker: u32, _tree: u32) {
        let _ = self.left.fetch_add(1, Ordering::SeqCst);
    }
}
