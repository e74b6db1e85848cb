// Compares what the timer found with the list of paths.
use crate::blocks::RandomBlock;
use crate::listing::{Listed, list_paths};
use crate::plain::{PlainArc, PlainBlock, PlainRow, Reading, plain_block};
use delay::Table;
use measure::Measure;
use std::alloc::{AllocError, Global};
use tables::Tables;

#[derive(Clone, Copy, Default)]
pub struct Tally {
    pub blocks: u64,
    pub slacks: u64,
    pub paths: u64,
    pub closed: u64,
    pub mismatches: u64,
}

// The timer's slack of a node.
fn timed_slack<M: Measure>(tables: &Tables<M>, node: u8) -> Option<PlainRow> {
    let slack = tables.slack(node)?;
    Some(PlainRow {
        ticks: i64::from(slack.place(0).unwrap_or(0)),
        stages: i64::from(slack.place(1).unwrap_or(0)),
    })
}

// The arcs of a path by their numbers, where they follow one another.
fn path_of(
    heap: Global,
    block: &PlainBlock,
    numbers: &[u16],
) -> Result<Option<Vec<PlainArc>>, AllocError> {
    let mut path: Vec<PlainArc> = Vec::new(heap);
    for number in numbers {
        let Some(arc) = block.arcs.iter().find(|arc| arc.number == *number) else {
            return Ok(None);
        };
        if let Some(last) = path.as_slice().last() {
            if last.to != arc.from {
                return Ok(None);
            }
        }
        path.push(*arc)?;
    }
    Ok(Some(path))
}

fn runs_through(from: u8, path: &[PlainArc], node: u8) -> bool {
    from == node || path.iter().any(|arc| arc.to == node)
}

// Is the path that the timer shows open, complete and through the node, with the slack?
fn path_is_right<M: Measure>(
    heap: Global,
    tables: &Tables<M>,
    block: &PlainBlock,
    node: u8,
    slack: PlainRow,
    reading: Reading,
) -> Result<bool, AllocError> {
    // a block has fewer arcs than this
    let mut list = [0u16; 16];
    let Ok(Some(count)) = tables.trace(i32::from(node), &mut list) else {
        return Ok(false);
    };
    let Some(numbers) = list.get(..count) else {
        return Ok(false);
    };
    let Some(path) = path_of(heap, block, numbers)? else {
        return Ok(false);
    };
    let path = path.as_slice();
    let from = path.first().map_or(node, |arc| arc.from);
    let shown = block.slack(from, path, reading);
    Ok(block.is_open(path) && runs_through(from, path, node) && shown == Some(slack))
}

// Does the timer say of a node what the list says?
fn node_is_right<M: Measure>(
    heap: Global,
    tables: &Tables<M>,
    block: &PlainBlock,
    listed: &Listed,
    node: u8,
    reading: Reading,
) -> Result<bool, AllocError> {
    let least = listed.least.get(node as usize).copied().unwrap_or(None);
    match (least, timed_slack(tables, node)) {
        (Some(expected), Some(found)) => Ok(
            expected == found && path_is_right(heap, tables, block, node, found, reading)?,
        ),
        (None, None) => Ok(true),
        _ => Ok(false),
    }
}

pub fn compare_block<M: Measure>(
    heap: Global,
    tables: &mut Tables<M>,
    made: &RandomBlock,
    reading: Reading,
    tally: &mut Tally,
) -> Result<(), AllocError> {
    let block = plain_block(heap, &made.graph, &made.rows)?;
    let listed = list_paths(heap, &block, reading)?;
    let timed = tables.time(&made.graph, &mut Table { rows: &made.rows });
    let mut wrong = u64::from(timed.is_err() || !listed.finished);
    for node in 0..=255 {
        if !node_is_right(heap, tables, &block, &listed, node, reading)? {
            wrong = wrong.wrapping_add(1);
        }
    }
    let slacks = listed.least.iter().flatten().count();
    tally.blocks = tally.blocks.wrapping_add(1);
    tally.slacks = tally.slacks.wrapping_add(slacks as u64);
    tally.paths = tally.paths.wrapping_add(listed.paths);
    tally.closed = tally.closed.wrapping_add(listed.closed);
    tally.mismatches = tally.mismatches.wrapping_add(wrong);
    Ok(())
}
