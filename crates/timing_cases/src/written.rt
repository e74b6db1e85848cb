// Tables of any lengths, and whether they are blank.
use measure::Measure;
use sheet::{Line, NodeEntry};
use std::alloc::{AllocError, Global};
use tables::Tables;

// What each table is full of at first: neither blank nor right, so that every place has to be written.
const WRITTEN: Line = Line {
    node: 9,
    tag: 9,
    back_arc: 9,
    back_line: 9,
    fore_arc: 9,
    fore_line: 9,
    required: true,
};

const ENTERED: NodeEntry = NodeEntry {
    timed: true,
    line: 9,
};

// What is blank, in the figures of the rules and not by the library's own constants.
const BLANK_LINE: Line = Line {
    node: 256,
    tag: 0,
    back_arc: 1024,
    back_line: 4096,
    fore_arc: 1024,
    fore_line: 4096,
    required: false,
};

const BLANK_ENTRY: NodeEntry = NodeEntry {
    timed: false,
    line: 4096,
};

pub fn written<M: Measure>(
    heap: Global,
    lines: usize,
    nodes: usize,
) -> Result<Tables<M>, AllocError> {
    let row = M::time(9).unwrap_or(M::zero());
    Tables::filled(heap, lines, nodes, WRITTEN, ENTERED, row)
}

fn is_zero<M: Measure>(row: &M) -> bool {
    (0..M::places()).all(|place| row.place(place) == Some(0))
}

// Are the entries of the nodes that have no slack blank?
fn untimed_are_blank<M: Measure>(tables: &Tables<M>) -> bool {
    tables.nodes.len() >= tables.slacks.len()
        && tables.nodes.iter().zip(tables.slacks.iter()).all(|(entry, slack)| entry.timed
            || (*entry == BLANK_ENTRY && is_zero(slack)))
}

// Is everything from line `from` on blank, and the entries of the nodes that have no slack?
pub fn rest_is_blank<M: Measure>(tables: &Tables<M>, from: usize) -> bool {
    let (Some(lines), Some(arrivals), Some(required)) = (
        tables.lines.as_slice().get(from..),
        tables.arrivals.as_slice().get(from..),
        tables.required.as_slice().get(from..),
    ) else {
        return false;
    };
    lines.iter().all(|line| *line == BLANK_LINE)
        && arrivals.iter().all(is_zero)
        && required.iter().all(is_zero)
        && untimed_are_blank(tables)
}

pub fn all_is_blank<M: Measure>(tables: &Tables<M>) -> bool {
    tables.nodes.iter().all(|entry| *entry == BLANK_ENTRY)
        && tables.slacks.iter().all(is_zero)
        && rest_is_blank(tables, 0)
}
