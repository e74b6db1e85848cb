// Pairs of nodes that name a false set, and the emptying of a set.
ghost use Rattle.std.specs.Prelude.{◌≡◌};
ghost use Rattle.graph.specs.Refusals.{numbered};
ghost use Rattle.graph.specs.Block.{block_of};
ghost use Rattle.graph.specs.Index.{IndexesBoth};
ghost use Rattle.graph.specs.Sets.{with_cleared};
ghost use Rattle.graph.specs.Pair.{Paired};

use crate::parts::{ArcEnd, Refusal};
use crate::ranges::{node_of, set_of};
use crate::sets::{Sides, empty};
use crate::store::{BothEnds, TimingGraph};
use crate::sweeps::sweep;

impl TimingGraph {
    // As `pair`, with the graph's indexes at hand.
    pub(crate) fn pair_by(
        &mut self,
        indexes: &BothEnds,
        set: i32,
        from: i32,
        to: i32,
    ) -> Result<(), Refusal>
        requires { IndexesBoth (block_of self.old).arcs indexes.now }
        ensures { Paired (block_of self.old) set from to (numbered result) (block_of self.new) }
    {
        let set = set_of(set)?;
        let from = node_of(from)?;
        let to = node_of(to)?;
        let ahead = sweep(&self.arcs, &indexes.tails, ArcEnd::Tail, from);
        if from == to || !ahead[to as usize] {
            return Err(Refusal::NoPath);
        }
        let behind = sweep(&self.arcs, &indexes.heads, ArcEnd::Head, to);
        Sides { ahead, behind }.mark(&mut self.arcs, set);
        Ok(())
    }

    // Adds to a set each live arc that lies on a path of live arcs from one node to another.
    pub fn pair(&mut self, set: i32, from: i32, to: i32) -> Result<(), Refusal>
        ensures { Paired (block_of self.old) set from to (numbered result) (block_of self.new) }
    {
        self.pair_by(&BothEnds::of(self), set, from, to)
    }

    // Empties a set.
    pub fn clear(&mut self, set: i32) -> Result<(), Refusal>
        ensures answer { numbered result ≡ (with_cleared (block_of self.old) set).answer }
        ensures after { block_of self.new ≡ (with_cleared (block_of self.old) set).after }
    {
        let set = set_of(set)?;
        empty(&mut self.arcs, set);
        Ok(())
    }
}
