// A block as plain numbers, read through the graph's look-ups.
use delay::AnnotatedRow;
use graph::TimingGraph;
use std::alloc::{AllocError, Global};

// A live arc with its ticks and trim summed.
#[derive(Clone, Copy)]
pub struct PlainArc {
    pub number: u16,
    pub from: u8,
    pub to: u8,
    pub ticks: i64,
    pub sets: u16,
}

#[derive(Drop)]
pub struct PlainBlock {
    pub arcs: Vec<PlainArc>,
    pub starts: Vec<Option<i32>>,
    pub ends: Vec<Option<i32>>,
}

// A slack, which is a number of ticks and then one of arcs. The derived order is by ticks, then by arcs.
#[derive(Clone, Copy, PartialEq, Eq, PartialOrd, Ord, Debug)]
pub struct PlainRow {
    pub ticks: i64,
    pub stages: i64,
}

// How a measure reads a slack of so many ticks over so many arcs.
#[derive(Clone, Copy)]
pub enum Reading {
    Ticks,
    Staged,
    Early,
    EarlyStaged,
}

impl Reading {
    pub fn row(self, ticks: i64, arcs: i64) -> PlainRow {
        let (ticks, stages) = match self {
            Reading::Ticks => (ticks, 0),
            Reading::Staged => (ticks, arcs.wrapping_neg()),
            Reading::Early => (ticks.wrapping_neg(), 0),
            Reading::EarlyStaged => (ticks.wrapping_neg(), arcs),
        };
        PlainRow { ticks, stages }
    }
}

fn plain_arcs(
    heap: Global,
    graph: &TimingGraph,
    rows: &[AnnotatedRow],
) -> Result<Vec<PlainArc>, AllocError> {
    let mut arcs = Vec::new(heap);
    for (number, row) in (0..1024u16).zip(rows) {
        let Some(live) = graph.arc(number) else {
            continue;
        };
        arcs.push(PlainArc {
            number,
            from: live.from,
            to: live.to,
            ticks: i64::from(row.ticks).wrapping_add(i64::from(live.trim)),
            sets: live.sets,
        })?;
    }
    Ok(arcs)
}

pub fn plain_block(
    heap: Global,
    graph: &TimingGraph,
    rows: &[AnnotatedRow],
) -> Result<PlainBlock, AllocError> {
    Ok(PlainBlock {
        arcs: plain_arcs(heap, graph, rows)?,
        starts: (0..=255).map(|node| graph.start(node)).collect(heap)?,
        ends: (0..=255).map(|node| graph.end(node)).collect(heap)?,
    })
}

impl PlainBlock {
    pub fn start(&self, node: u8) -> Option<i32> {
        *self.starts.get(node as usize)?
    }

    pub fn end(&self, node: u8) -> Option<i32> {
        *self.ends.get(node as usize)?
    }

    // The sets with an arc that leaves the node.
    fn leaving(&self, node: u8) -> u16 {
        let arcs = self.arcs.iter().filter(|arc| arc.from == node);
        arcs.fold(0, |sets, arc| sets | arc.sets)
    }

    // The sets with an arc that enters the node.
    fn entering(&self, node: u8) -> u16 {
        let arcs = self.arcs.iter().filter(|arc| arc.to == node);
        arcs.fold(0, |sets, arc| sets | arc.sets)
    }

    // The sets that begin at a node: an arc of the set leaves it and none enters it.
    fn begin_sets(&self, node: u8) -> u16 {
        self.leaving(node) & !self.entering(node)
    }

    // The sets that end at a node: an arc of the set enters it and none leaves it.
    fn end_sets(&self, node: u8) -> u16 {
        self.entering(node) & !self.leaving(node)
    }

    // Is there a stretch from the first of these arcs on, all in one set, from where that set begins to where it ends?
    fn closes_at_once(&self, arcs: &[PlainArc]) -> bool {
        let Some(first) = arcs.first() else {
            return false;
        };
        let mut sets = self.begin_sets(first.from);
        for arc in arcs {
            sets &= arc.sets;
            if sets & self.end_sets(arc.to) != 0 {
                return true;
            }
        }
        false
    }

    // Does no stretch of the path run through a set from where it begins to where it ends?
    pub fn is_open(&self, path: &[PlainArc]) -> bool {
        (0..path.len())
            .filter_map(|i| path.get(i..))
            .all(|rest| !self.closes_at_once(rest))
    }

    // The slack of a path from a node over some arcs, where it is complete.
    pub fn slack(&self, from: u8, path: &[PlainArc], reading: Reading) -> Option<PlainRow> {
        let mut node = from;
        let mut spent = i64::from(self.start(from)?);
        for arc in path {
            spent = spent.wrapping_add(arc.ticks);
            node = arc.to;
        }
        let left = i64::from(self.end(node)?).wrapping_sub(spent);
        Some(reading.row(left, path.len() as i64))
    }
}
