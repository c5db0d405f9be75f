//! A gate as one worker sees it.
use sel_base::Gate;

/// What a worker passes before and after each tree.
pub trait Passing {
    fn enter(&self, worker: u32, tree: u32);

    fn leave(&self, worker: u32, tree: u32);
}

/// Passes the gate.
#[derive(Drop)]
pub struct Through<'g, G> {
    pub gate: &'g G,
}

impl<'g, G: Gate> Passing for Through<'g, G> {
    fn enter(&self, worker: u32, tree: u32) {
        self.gate.enter(worker, tree)
    }

    fn leave(&self, worker: u32, tree: u32) {
        self.gate.leave(worker, tree)
    }
}
