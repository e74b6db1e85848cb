// A graph with what the passes read of its arcs and nodes.
ghost use Rattle.std.specs.Prelude.{◌≡◌, length};
ghost use Rattle.graph.specs.Block.{block_of};
ghost use Rattle.timing.specs.Masks.{Masked};
ghost use Rattle.timing.specs.Asking.{Ticked};

use crate::crossing::Crossing;
use crate::rows::arc_row;
use graph::{LiveArc, TimingGraph};
use measure::Measure;

// The ticks of each live arc, by number, and the sets that begin and end at each node.
#[derive(Drop)]
pub(crate) struct TimedBlock<'a> {
    pub graph: &'a TimingGraph,
    pub ticks: [i32; 1024],
    pub begins: [u16; 256],
    pub ends: [u16; 256],
    ghost sized: { length ticks ≡ 1024 },
    ghost masked: { Masked (block_of graph.now).arcs begins ends },
    ghost ticked: { Ticked (block_of graph.now).arcs ticks },
}

impl TimedBlock<'_> {
    ghost use Rattle.std.specs.Prelude.{Some, None, slice_index_or};
    ghost use Rattle.timing.specs.Crossings.{meant};
    ghost use Rattle.timing.specs.TimedBlock.{arcs_in, crossing_at};

    // The arc of that number, as it is crossed.
    pub(crate) fn crossing<M: Measure>(&self, number: u16, arc: LiveArc) -> Crossing<M>
        requires { slice_index_or (arcs_in self.now) number None ≡ Some arc }
        ensures { meant M.Measure.row result ≡ crossing_at M.Measure self.now number arc }
    {
        Crossing {
            arc: number,
            to: arc.to as u16,
            begins: self.begins[arc.from as usize],
            sets: arc.sets,
            ends: self.ends[arc.to as usize],
            row: arc_row(self.ticks[number as usize]),
        }
    }
}
