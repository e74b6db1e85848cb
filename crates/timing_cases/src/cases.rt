// The cases that are accepted.
use crate::block::{delays, selectors};
use crate::show::{show_path, show_time};
use crate::written::written;
use delay::{AnnotatedRow, Margin, Table};
use graph::TimingGraph;
use measure::{Early, Measure, StagedTicks, Ticks};
use std::io;

// Times by ticks in tables of so many lines, and shows the paths of some nodes in lists of five places.
fn show<M: Measure>(
    rt: &HostRuntime,
    name: &str,
    graph: &TimingGraph,
    rows: &[AnnotatedRow],
    lines: usize,
    nodes: &[i32],
) -> io::Result<()> {
    let mut tables = written::<M>(rt.alloc(), lines, 256)?;
    show_time(rt, name, graph, &mut Table { rows }, &mut tables)?;
    for node in nodes {
        show_path(rt, &tables, *node, 5)?;
    }
    Ok(())
}

// A new graph, and a start and an end on one node.
pub fn small(rt: &HostRuntime) -> io::Result<()> {
    let mut graph = TimingGraph::new();
    show::<Ticks>(rt, "new graph", &graph, &[], 4, &[0, 255])?;
    show::<Ticks>(rt, "new graph, no lines", &graph, &[], 0, &[])?;
    let _ = graph.set_start(3, 7);
    let _ = graph.set_end(3, 10);
    show::<Ticks>(rt, "start 7 and end 10", &graph, &[], 4, &[3, 2])?;
    show::<StagedTicks>(rt, "the same, staged", &graph, &[], 1, &[3])?;
    show::<Early<Ticks>>(rt, "the same, early", &graph, &[], 1, &[3])
}

fn show_number(rt: &HostRuntime, name: &str, answer: Result<(), graph::Refusal>) -> io::Result<()> {
    match answer {
        Ok(()) => println!(rt; "{name}: done"),
        Err(refusal) => {
            let number = refusal.number();
            println!(rt; "{name}: refused {number}")
        }
    }
}

// The block with one set, with two, and with one that closes all.
pub fn selected(rt: &HostRuntime) -> io::Result<()> {
    let rows = delays(rt.alloc())?;
    let rows = rows.as_slice();
    let mut graph = selectors();
    show::<Ticks>(rt, "no sets", &graph, rows, 4096, &[6, 2])?;
    show_number(rt, "pair 0 1 4", graph.pair(0, 1, 4))?;
    show::<Ticks>(rt, "set 0 from 1 to 4", &graph, rows, 8, &[6, 5])?;
    show::<Ticks>(rt, "in 7 lines", &graph, rows, 7, &[])?;
    show_number(rt, "drop 2", graph.drop_arc(2))?;
    show_number(rt, "pair 0 4 1", graph.pair(0, 4, 1))?;
    show_number(rt, "pair 1 2 4", graph.pair(1, 2, 4))?;
    show::<Ticks>(rt, "also set 1 from 2 to 4", &graph, rows, 7, &[6, 4, 2])?;
    let mut graph = selectors();
    show_number(rt, "pair 0 0 3", graph.pair(0, 0, 3))?;
    show::<Ticks>(rt, "only set 0 from 0 to 3", &graph, rows, 16, &[0, 6])
}

// The block with set 0 from 1 to 4 by the other measures, and under a margin without sets.
pub fn measured(rt: &HostRuntime) -> io::Result<()> {
    let rows = delays(rt.alloc())?;
    let rows = rows.as_slice();
    let mut graph = selectors();
    let _ = graph.pair(0, 1, 4);
    show::<StagedTicks>(rt, "set 0, staged", &graph, rows, 8, &[6])?;
    show::<Early<Ticks>>(rt, "set 0, early", &graph, rows, 8, &[6, 4])?;
    show::<Early<StagedTicks>>(rt, "set 0, early staged", &graph, rows, 9, &[6])?;
    let graph = selectors();
    let mut tables = written::<Ticks>(rt.alloc(), 8, 256)?;
    let mut margin = Margin::new(Table { rows }, 1500);
    show_time(rt, "no sets, margin 1500", &graph, &mut margin, &mut tables)
}

// A trial of arc 0 with -100 ticks, and after its end.
pub fn tried(rt: &HostRuntime) -> io::Result<()> {
    let rows = delays(rt.alloc())?;
    let mut graph = selectors();
    {
        let trial = graph.trial(0, -100);
        show::<Ticks>(
            rt,
            "under the trial",
            trial.graph(),
            rows.as_slice(),
            8,
            &[6],
        )?;
    }
    show::<Ticks>(rt, "after its end", &graph, rows.as_slice(), 8, &[6])
}
