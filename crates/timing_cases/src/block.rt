// The two-selector block.
use delay::AnnotatedRow;
use graph::TimingGraph;
use std::alloc::{AllocError, Global};

pub fn selectors() -> TimingGraph {
    let mut graph = TimingGraph::new();
    for (from, to) in [
        (0, 1),
        (0, 2),
        (1, 3),
        (2, 3),
        (3, 4),
        (3, 5),
        (4, 6),
        (5, 6),
    ] {
        let _ = graph.add_arc(from, to);
    }
    let _ = graph.set_start(0, 0);
    let _ = graph.set_end(6, 350);
    graph
}

pub fn delays(heap: Global) -> Result<Vec<AnnotatedRow>, AllocError> {
    let mut rows = Vec::new(heap);
    for ticks in [200, 100, 0, 0, 200, 100, 0, 0] {
        rows.push(AnnotatedRow::new(ticks))?;
    }
    Ok(rows)
}
