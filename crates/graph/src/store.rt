// How a graph and the indexes of its arcs are stored, and what each keeps.
ghost use Rattle.std.specs.Prelude.{◌≤◌};
ghost use Rattle.graph.specs.Kept.{Numbered, Rising, NodesInRange, TrimsInRange, TimesInRange};
ghost use Rattle.graph.specs.Slots.{arcs_of, times_of};
ghost use Rattle.graph.specs.Sorting.{Parted};

use crate::parts::{ArcSlot, TimeSlot};

// The block's arcs, bounds and false sets. The arc numbers below `taken` are used up.
#[repr(C)]
#[derive(Drop)]
pub struct TimingGraph {
    pub(crate) taken: u16,
    pub(crate) arcs: [ArcSlot; 1024],
    pub(crate) starts: [TimeSlot; 256],
    pub(crate) ends: [TimeSlot; 256],
    ghost room: { taken ≤ 1024 },
    ghost numbered: { Numbered taken (arcs_of arcs) },
    ghost rising: { Rising (arcs_of arcs) },
    ghost noded: { NodesInRange (arcs_of arcs) },
    ghost trimmed: { TrimsInRange (arcs_of arcs) },
    ghost started: { TimesInRange (times_of starts) },
    ghost ended: { TimesInRange (times_of ends) },
}

// Arc numbers sorted by the node at one end: `order` has a segment for each node, `ends` where it ends.
#[derive(Drop)]
pub struct ArcIndex {
    pub(crate) ends: [u16; 257],
    pub(crate) order: [u16; 1024],
    ghost parted: { Parted ends },
}

// The live arcs by their tails and by their heads.
#[derive(Drop)]
pub(crate) struct BothEnds {
    pub(crate) tails: ArcIndex,
    pub(crate) heads: ArcIndex,
}
