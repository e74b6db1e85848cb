// Every complete path of a block, one after another.
use crate::plain::{PlainArc, PlainBlock, PlainRow, Reading};
use std::alloc::{AllocError, Global};

// More steps than any block of this size takes.
const MOST_STEPS: u32 = 1_000_000;

// What the list of paths says.
#[derive(Drop)]
pub struct Listed {
    // The least slack of the open complete paths through each node.
    pub least: Vec<Option<PlainRow>>,
    pub paths: u64,
    pub closed: u64,
    pub finished: bool,
}

// The first arc from index `at` on that leaves the node, with its index.
fn next_arc(arcs: &[PlainArc], node: u8, at: usize) -> Option<(usize, PlainArc)> {
    let (i, arc) = arcs
        .iter()
        .enumerate()
        .skip(at)
        .find(|(_, arc)| arc.from == node)?;
    Some((i, *arc))
}

fn note(least: &mut [Option<PlainRow>], node: u8, slack: PlainRow) {
    if let Some(place) = least.get_mut(node as usize) {
        *place = Some(place.map_or(slack, |known| known.min(slack)));
    }
}

fn note_all(least: &mut [Option<PlainRow>], from: u8, path: &[PlainArc], slack: PlainRow) {
    note(least, from, slack);
    for arc in path {
        note(least, arc.to, slack);
    }
}

// Counts a path where it is complete, and notes its slack where it is open.
fn visit(listed: &mut Listed, block: &PlainBlock, from: u8, path: &[PlainArc], reading: Reading) {
    let Some(slack) = block.slack(from, path, reading) else {
        return;
    };
    listed.paths = listed.paths.wrapping_add(1);
    if block.is_open(path) {
        note_all(listed.least.as_mut_slice(), from, path, slack);
    } else {
        listed.closed = listed.closed.wrapping_add(1);
    }
}

fn last_node(from: u8, path: &[PlainArc]) -> u8 {
    path.last().map_or(from, |arc| arc.to)
}

// Every path from a node: each is longer by the first arc that leads on, or goes on with the arc behind its last.
fn list_from(
    heap: Global,
    listed: &mut Listed,
    block: &PlainBlock,
    from: u8,
    reading: Reading,
) -> Result<(), AllocError> {
    let mut path: Vec<PlainArc> = Vec::new(heap);
    let mut places: Vec<usize> = Vec::new(heap);
    let mut at = 0usize;
    visit(listed, block, from, path.as_slice(), reading);
    for _ in 0..MOST_STEPS {
        let node = last_node(from, path.as_slice());
        if let Some((i, arc)) = next_arc(block.arcs.as_slice(), node, at) {
            path.push(arc)?;
            places.push(i)?;
            at = 0;
            visit(listed, block, from, path.as_slice(), reading);
        } else {
            let _ = path.pop();
            let Some(i) = places.pop() else {
                return Ok(());
            };
            at = i.wrapping_add(1);
        }
    }
    listed.finished = false;
    Ok(())
}

pub fn list_paths(
    heap: Global,
    block: &PlainBlock,
    reading: Reading,
) -> Result<Listed, AllocError> {
    let mut listed = Listed {
        least: vec![in heap; None; 256]?,
        paths: 0,
        closed: 0,
        finished: true,
    };
    for node in 0..=255 {
        if block.start(node).is_some() {
            list_from(heap, &mut listed, block, node, reading)?;
        }
    }
    Ok(listed)
}
