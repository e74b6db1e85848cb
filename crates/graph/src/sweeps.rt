// Which nodes a path of live arcs leads to, or comes from, in one sweep over the nodes in their order.
ghost use Rattle.std.specs.Prelude.{◌≡◌, ℕ, true, false, length, replicate, slice_index_or, slice_set};
ghost use Rattle.graph.specs.Slots.{arcs_of};
ghost use Rattle.graph.specs.Kept.{Rising};
ghost use Rattle.graph.specs.Index.{Indexes};
ghost use Rattle.graph.specs.Sweeps.{far_at, Visited, Reaches};

use crate::order::nth_from;
use crate::parts::{ArcEnd, ArcSlot, LiveArc};
use crate::store::ArcIndex;

fn only(node: u8) -> [bool; 256]
    ensures { result ≡ slice_set (replicate 256 false) node true }
{
    let mut seen = [false; 256];
    seen[node as usize] = true;
    seen
}

fn far_node(arc: LiveArc, end: ArcEnd) -> u8
    ensures { result ≡ far_at end arc }
{
    match end {
        ArcEnd::Tail => arc.to,
        ArcEnd::Head => arc.from,
    }
}

// Marks the far node of each arc that has the node at the index's end, if the node is marked.
fn visit(arcs: &[ArcSlot], index: &ArcIndex, end: ArcEnd, node: u8, seen: &mut [bool; 256])
    requires { Indexes end (arcs_of arcs.now) index.now }
    ensures { Visited end (arcs_of arcs.now) node seen.old seen.new }
{
    if !seen[node as usize] {
        return;
    }
    for number in index.arcs_at(node) {
        let slot = arcs[*number as usize];
        seen[far_node(slot.arc, end) as usize] = true;
    }
}

// The nodes that paths from the node lead to, or, by the heads, those that paths to it come from.
pub(crate) fn sweep(arcs: &[ArcSlot], index: &ArcIndex, end: ArcEnd, node: u8) -> [bool; 256]
    requires rising { Rising (arcs_of arcs.now) }
    requires indexed { Indexes end (arcs_of arcs.now) index.now }
    ensures sound { (v : ℕ) → slice_index_or result v false ≡ true → Reaches end (arcs_of arcs.now) node v }
    ensures all { (v : ℕ) → Reaches end (arcs_of arcs.now) node v → slice_index_or result v false ≡ true }
{
    let mut seen = only(node);
    for place in 0..=255u8 {
        visit(arcs, index, end, nth_from(end, place), &mut seen);
    }
    seen
}
