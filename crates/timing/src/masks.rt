// The sets of the arcs at each node.
ghost use Rattle.std.specs.Prelude.{◌≡◌, ℕ, ◌<◌, slice_index};
ghost use Rattle.graph.specs.Block.{block_of};
ghost use Rattle.timing.specs.Masks.{Gathered, with_sets, sets_without};

use graph::{ArcEnd, LiveArc, TimingGraph};

// Adds the sets of an arc, if there is one, to those of the node at its end.
fn add_sets(end: ArcEnd, arc: Option<LiveArc>, masks: &mut [u16; 256])
    ensures { masks.new ≡ with_sets end arc masks.old }
{
    let Some(arc) = arc else {
        return;
    };
    masks[arc.node_at(end) as usize] |= arc.sets;
}

// The sets of the arcs that have each node at that end.
pub(crate) fn sets_at(end: ArcEnd, graph: &TimingGraph) -> [u16; 256]
    ensures { Gathered end (block_of graph.now).arcs result }
{
    let mut masks = [0; 256];
    for number in 0..graph.taken() {
        add_sets(end, graph.arc(number), &mut masks);
    }
    masks
}

// The sets of each node that are not among its others: a set begins where an arc of it leaves and none enters, and ends
// where one enters and none leaves.
pub(crate) fn apart_from(masks: &[u16; 256], others: &[u16; 256]) -> [u16; 256]
    ensures { (v : ℕ) → v < 256 → slice_index result v ≡ sets_without (slice_index others.now v) (slice_index masks.now v) }
{
    let mut left = [0; 256];
    for (v, sets) in masks.iter().enumerate() {
        left[v] = *sets & !others[v];
    }
    left
}
