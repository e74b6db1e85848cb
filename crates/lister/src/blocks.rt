// Random blocks, made by the graph's calls.
use crate::dice::Dice;
use delay::AnnotatedRow;
use graph::TimingGraph;

// Arcs have numbers below this.
pub const MOST_ARCS: u16 = 14;

#[derive(Drop)]
pub struct RandomBlock {
    pub graph: TimingGraph,
    pub rows: [AnnotatedRow; 1024],
}

fn add_arcs(graph: &mut TimingGraph, dice: &mut Dice, nodes: u16) {
    let count = dice.roll(8).saturating_add(7);
    for _ in 0..count {
        let (from, to) = dice.rising(nodes);
        let _ = graph.add_arc(from, to);
    }
}

// A start at the first node and an end at the last, and some more.
fn add_bounds(graph: &mut TimingGraph, dice: &mut Dice, nodes: u16) {
    let _ = graph.set_start(0, dice.number(-5, 11));
    let _ = graph.set_end(i32::from(nodes) - 1, dice.number(0, 60));
    for node in 0..nodes {
        if dice.roll(6) == 0 {
            let _ = graph.set_start(i32::from(node), dice.number(-15, 31));
        }
        if dice.roll(6) == 0 {
            let _ = graph.set_end(i32::from(node), dice.number(0, 60));
        }
    }
}

fn add_delays(rows: &mut [AnnotatedRow; 1024], dice: &mut Dice) {
    for row in rows.iter_mut().take(MOST_ARCS as usize) {
        *row = AnnotatedRow::new(dice.number(-5, 21));
    }
}

// False sets, trims, drops and clears in turn; a call that is refused changes nothing.
fn change(graph: &mut TimingGraph, dice: &mut Dice, nodes: u16) {
    let sets = dice.roll(4).saturating_add(1);
    let turns = dice.roll(8);
    for _ in 0..turns {
        let set = dice.number(0, sets);
        let (from, to) = dice.rising(nodes);
        let _ = graph.pair(set, from, to);
        let arc = dice.number(0, MOST_ARCS);
        let _ = graph.set_trim(arc, dice.number(-4, 9));
        if dice.roll(4) == 0 {
            let _ = graph.drop_arc(dice.number(0, MOST_ARCS));
        }
        if dice.roll(20) == 0 {
            let _ = graph.clear(dice.number(0, 4));
        }
    }
}

pub fn random_block(dice: &mut Dice) -> RandomBlock {
    let mut block = RandomBlock {
        graph: TimingGraph::new(),
        rows: [AnnotatedRow::BLANK; 1024],
    };
    let nodes = dice.roll(5).saturating_add(5);
    add_arcs(&mut block.graph, dice, nodes);
    add_bounds(&mut block.graph, dice, nodes);
    add_delays(&mut block.rows, dice);
    change(&mut block.graph, dice, nodes);
    block
}
