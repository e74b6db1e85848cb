// The calls that change one arc or one bound, and what can be asked of a graph.
ghost use Rattle.std.specs.Prelude.{◌≡◌, None, slice_index_or};
ghost use Rattle.graph.specs.Refusals.{numbered};
ghost use Rattle.graph.specs.Slots.{times_of};
ghost use Rattle.graph.specs.Block.{SetsTime, block_of, blank, arc_at, with_arc, without_arc, with_start, with_end, with_trim, Kept};

use crate::order::precedes;
use crate::parts::{ArcSlot, LiveArc, Refusal, TimeSlot};
use crate::ranges::{arc_of, node_of, ticks_of};
use crate::store::TimingGraph;

const NO_ARC: ArcSlot = ArcSlot {
    live: false,
    arc: LiveArc {
        from: 0,
        to: 0,
        trim: 0,
        sets: 0,
    },
};

const NO_TIME: TimeSlot = TimeSlot {
    set: false,
    ticks: 0,
};

// The ticks of a node in a table of starts or ends, if it has any there.
fn time_at(times: &[TimeSlot; 256], node: u8) -> Option<i32>
    ensures { result ≡ slice_index_or (times_of times.now) node None }
{
    let slot = times[node as usize];
    slot.set.then_some(slot.ticks)
}

// Sets or replaces the ticks of a node in a table of starts or ends.
fn set_time(times: &mut [TimeSlot; 256], node: i32, ticks: i32) -> Result<(), Refusal>
    ensures { SetsTime (times_of times.old) node ticks (numbered result) (times_of times.new) }
{
    let node = node_of(node)?;
    let ticks = ticks_of(ticks)?;
    times[node as usize] = TimeSlot { set: true, ticks };
    Ok(())
}

impl TimingGraph {
    pub fn new() -> TimingGraph
        ensures { block_of result ≡ blank }
    {
        TimingGraph {
            taken: 0,
            arcs: [NO_ARC; 1024],
            starts: [NO_TIME; 256],
            ends: [NO_TIME; 256],
        }
    }

    // What every graph keeps, whatever was called.
    pub fn kept(&self)
        ensures { Kept (block_of self.now) }
    {}

    // How many arc numbers are used up.
    pub fn taken(&self) -> u16
        ensures { result ≡ (block_of self.now).taken }
    {
        self.taken
    }

    // The arc of a number, if it is live.
    pub fn arc(&self, number: u16) -> Option<LiveArc>
        ensures { result ≡ arc_at (block_of self.now) number }
    {
        let slot = self.arcs.get(number as usize)?;
        slot.live.then_some(slot.arc)
    }

    // The ticks of a node's start, if it has one.
    pub fn start(&self, node: u8) -> Option<i32>
        ensures { result ≡ slice_index_or (block_of self.now).starts node None }
    {
        time_at(&self.starts, node)
    }

    // The ticks of a node's end, if it has one.
    pub fn end(&self, node: u8) -> Option<i32>
        ensures { result ≡ slice_index_or (block_of self.now).ends node None }
    {
        time_at(&self.ends, node)
    }

    // A new arc with trim 0, under the next number, which is the answer.
    pub fn add_arc(&mut self, from: i32, to: i32) -> Result<u16, Refusal>
        ensures answer { numbered result ≡ (with_arc (block_of self.old) from to).answer }
        ensures after { block_of self.new ≡ (with_arc (block_of self.old) from to).after }
    {
        let from = node_of(from)?;
        let to = node_of(to)?;
        if !precedes(from, to) {
            return Err(Refusal::NotRising);
        }
        let number = self.taken;
        if number == 1024 {
            return Err(Refusal::Full);
        }
        self.arcs[number as usize] = ArcSlot {
            live: true,
            arc: LiveArc {
                from,
                to,
                trim: 0,
                sets: 0,
            },
        };
        self.taken = number + 1;
        Ok(number)
    }

    // Ends a live arc that stands in no set. Its number is not used again.
    pub fn drop_arc(&mut self, arc: i32) -> Result<(), Refusal>
        ensures answer { numbered result ≡ (without_arc (block_of self.old) arc).answer }
        ensures after { block_of self.new ≡ (without_arc (block_of self.old) arc).after }
    {
        let number = arc_of(arc)?;
        let live = self.arc(number).ok_or(Refusal::NotLive)?;
        if live.sets != 0 {
            return Err(Refusal::InSet);
        }
        self.arcs[number as usize] = NO_ARC;
        Ok(())
    }

    // Sets or replaces a node's start.
    pub fn set_start(&mut self, node: i32, ticks: i32) -> Result<(), Refusal>
        ensures answer { numbered result ≡ (with_start (block_of self.old) node ticks).answer }
        ensures after { block_of self.new ≡ (with_start (block_of self.old) node ticks).after }
    {
        set_time(&mut self.starts, node, ticks)
    }

    // Sets or replaces a node's end.
    pub fn set_end(&mut self, node: i32, ticks: i32) -> Result<(), Refusal>
        ensures answer { numbered result ≡ (with_end (block_of self.old) node ticks).answer }
        ensures after { block_of self.new ≡ (with_end (block_of self.old) node ticks).after }
    {
        set_time(&mut self.ends, node, ticks)
    }

    // Sets the ticks that are added to an arc's delay.
    pub fn set_trim(&mut self, arc: i32, ticks: i32) -> Result<(), Refusal>
        ensures answer { numbered result ≡ (with_trim (block_of self.old) arc ticks).answer }
        ensures after { block_of self.new ≡ (with_trim (block_of self.old) arc ticks).after }
    {
        let number = arc_of(arc)?;
        let ticks = ticks_of(ticks)?;
        let live = self.arc(number).ok_or(Refusal::NotLive)?;
        self.arcs[number as usize] = ArcSlot {
            live: true,
            arc: LiveArc {
                trim: ticks,
                ..live
            },
        };
        Ok(())
    }
}
