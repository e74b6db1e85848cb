// The memory that a caller lends for a graph.
ghost use Rattle.std.specs.Prelude.{◌≡◌, ◌==◌};

use graph::TimingGraph;

// What `seal` is once a graph was made: zeroed memory has another.
pub(crate) const SEAL: u32 = 0x5249_504F;

// A graph, and the trial that is open on it, with its arc and that arc's earlier trim. A guard cannot live from one call
// of C to the next, so the trial stands here. Zeroed memory is a graph that was never made.
#[repr(C)]
#[derive(Drop)]
pub struct HeldGraph {
    pub(crate) seal: u32,
    pub(crate) on_trial: bool,
    pub(crate) arc: i32,
    pub(crate) earlier: i32,
    pub(crate) graph: TimingGraph,
}

impl HeldGraph {
    ghost use Rattle.held.specs.declared.memory.TheConstants.{SEAL as seal_made};

    // Was a graph made here?
    pub(crate) fn is_made(&self) -> bool
        ensures { result ≡ (self.now.seal == seal_made) }
    {
        self.seal == SEAL
    }
}
