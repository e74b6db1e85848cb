// A graph on the way through a load, with the indexes of its arcs, unless an arc came since they were made.
ghost use Rattle.std.specs.Option.{ForSome};
ghost use Rattle.graph.specs.Slots.{arcs_of};
ghost use Rattle.graph.specs.Index.{IndexesBoth};

use crate::store::{BothEnds, TimingGraph};

#[derive(Drop)]
pub(crate) struct Loading {
    pub(crate) graph: TimingGraph,
    pub(crate) indexes: Option<BothEnds>,
    ghost indexed: { ForSome indexes (IndexesBoth (arcs_of graph.arcs)) },
}
