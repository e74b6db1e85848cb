// A trial: one arc's trim set for a while, and put back when the guard goes.
ghost use Rattle.std.specs.Prelude.{◌≡◌};
ghost use Rattle.graph.specs.Block.{block_of};
ghost use Rattle.graph.specs.Trials.{Opened, put_back, earlier_of};

use crate::parts::Refusal;
use crate::ranges::arc_of;
use crate::store::TimingGraph;

// `refusal` is why the trim was refused, if it was: then the trial changes nothing.
pub struct Trial<'a> {
    graph: &'a mut TimingGraph,
    arc: i32,
    earlier: i32,
    refusal: Option<Refusal>,
}

impl TimingGraph {
    // The trim of an arc, or 0 where it is not live.
    fn trim_of(&self, arc: i32) -> i32
        ensures { result ≡ earlier_of (block_of self.now) arc }
    {
        let live = arc_of(arc).ok().and_then(|number| self.arc(number));
        live.map_or(0, |live| live.trim)
    }

    // Sets an arc's trim until the trial ends.
    pub fn trial(&mut self, arc: i32, ticks: i32) -> Trial<'_>
        ensures lent { result.graph.ghost_name ≡ self.entry.ghost_name }
        ensures opened { Opened (block_of self.old) arc ticks (block_of result.graph.now) result.arc result.earlier result.refusal }
        ensures back { put_back (block_of result.graph.now) result.arc result.earlier result.refusal ≡ block_of self.old }
    {
        let earlier = self.trim_of(arc);
        let refusal = self.set_trim(arc, ticks).err();
        Trial {
            graph: self,
            arc,
            earlier,
            refusal,
        }
    }
}

impl Trial<'_> {
    // The graph under the trial, to be read only.
    pub fn graph(&self) -> &TimingGraph
        ensures { result.now ≡ self.now.graph.now }
    {
        &*self.graph
    }

    // Why the trial was refused, if it was.
    pub fn refusal(&self) -> Option<Refusal>
        ensures { result ≡ self.now.refusal }
    {
        self.refusal
    }
}

impl Drop for Trial<'_> {
    fn drop(self)
        ensures { block_of self.exit.0.now ≡ put_back (block_of self.entry.graph.now) self.entry.arc self.entry.earlier self.entry.refusal }
    {
        let Trial {
            graph,
            arc,
            earlier,
            refusal,
        } = self;
        if refusal.is_none() {
            let _ = graph.set_trim(arc, earlier);
        }
    }
}
