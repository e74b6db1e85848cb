// The blocks that are timed, of 1,024 arcs each.
use delay::AnnotatedRow;
use graph::TimingGraph;

const LAYER: u16 = 16;

const SELECTORS: u16 = 10;

// The node behind the last selector.
const BEHIND: u16 = 30;

#[derive(Clone, Copy)]
pub struct Dice {
    state: u32,
}

impl Dice {
    pub fn new() -> Dice {
        Dice { state: 1 }
    }

    fn roll(&mut self, sides: u16) -> u16 {
        self.state = self
            .state
            .wrapping_mul(1_664_525)
            .wrapping_add(1_013_904_223);
        if sides == 0 {
            return 0;
        }
        ((self.state >> 16) & 0xffff) as u16 % sides
    }
}

// A node of the layer so many layers on, straight ahead or anywhere.
fn node_ahead(dice: &mut Dice, node: u16, layers: u16, straight: bool) -> i32 {
    let place = if straight {
        node % LAYER
    } else {
        dice.roll(LAYER)
    };
    i32::from(node / LAYER) * 16 + i32::from(layers) * 16 + i32::from(place)
}

// Four arcs from each node to the next layer, and 64 that pass a layer.
fn add_arcs(graph: &mut TimingGraph, dice: &mut Dice) {
    for i in 0..960u16 {
        let node = i / 4;
        let to = node_ahead(dice, node, 1, i % 4 == 0);
        let _ = graph.add_arc(i32::from(node), to);
    }
    for _ in 0..64 {
        let node = dice.roll(224);
        let to = node_ahead(dice, node, 2, false);
        let _ = graph.add_arc(i32::from(node), to);
    }
}

// Starts in the first layer and ends in the last.
fn add_bounds(graph: &mut TimingGraph, dice: &mut Dice) {
    for i in 0..LAYER {
        let _ = graph.set_start(i32::from(i), i32::from(dice.roll(100)));
        let _ = graph.set_end(i32::from(i) + 240, 10_000);
    }
}

// Each set from a node to one that is four layers on.
fn add_sets(graph: &mut TimingGraph, dice: &mut Dice) {
    for set in 0..LAYER {
        let from = (set % 12 * LAYER).saturating_add(dice.roll(LAYER));
        let to = node_ahead(dice, from, 4, false);
        let _ = graph.pair(i32::from(set), i32::from(from), to);
    }
}

pub fn add_delays(rows: &mut [AnnotatedRow; 1024], dice: &mut Dice) {
    for row in rows.iter_mut() {
        *row = AnnotatedRow::new(i32::from(dice.roll(900)) + 100);
    }
}

// 16 layers with 16 nodes each, and 16 sets.
pub fn layered(dice: &mut Dice) -> TimingGraph {
    let mut graph = TimingGraph::new();
    add_arcs(&mut graph, dice);
    add_bounds(&mut graph, dice);
    add_sets(&mut graph, dice);
    graph
}

// Adds some arcs from one node to another.
fn connect(graph: &mut TimingGraph, from: u16, to: u16, arcs: u16) {
    for _ in 0..arcs {
        let _ = graph.add_arc(i32::from(from), i32::from(to));
    }
}

// The two ways through each selector, and the two behind the last.
fn add_ways(graph: &mut TimingGraph) {
    for selector in 0..SELECTORS {
        let from = selector * 3;
        connect(graph, from, from + 1, 25);
        connect(graph, from, from + 2, 25);
        connect(graph, from + 1, from + 3, 25);
        connect(graph, from + 2, from + 3, 25);
    }
    connect(graph, BEHIND, BEHIND + 1, 12);
    connect(graph, BEHIND, BEHIND + 2, 12);
}

// Ten selectors in a row. Each has two ways, and on one of them a set begins. All sets end at the first of two nodes
// behind the last selector. So the node behind k selectors has 2^k tags.
pub fn selectors() -> TimingGraph {
    let mut graph = TimingGraph::new();
    add_ways(&mut graph);
    let _ = graph.set_start(0, 0);
    let ends = i32::from(BEHIND) + 1;
    let _ = graph.set_end(ends, 10_000);
    let _ = graph.set_end(ends + 1, 10_000);
    for set in 0..SELECTORS {
        let _ = graph.pair(i32::from(set), i32::from(set) * 3 + 1, ends);
    }
    graph
}
