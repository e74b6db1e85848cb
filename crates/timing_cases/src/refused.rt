// Timings that are refused.
use crate::block::{delays, selectors};
use crate::show::show_time;
use crate::written::written;
use delay::{AnnotatedRow, Margin, Table};
use graph::TimingGraph;
use measure::{StagedTicks, Ticks};
use std::io;
use tables::Tables;

fn show(
    rt: &HostRuntime,
    name: &str,
    graph: &TimingGraph,
    rows: &[AnnotatedRow],
) -> io::Result<()> {
    let mut tables = written::<StagedTicks>(rt.alloc(), 8, 256)?;
    show_time(rt, name, graph, &mut Table { rows }, &mut tables)
}

fn show_margin(
    rt: &HostRuntime,
    name: &str,
    graph: &TimingGraph,
    rows: &[AnnotatedRow],
) -> io::Result<()> {
    let mut tables = written::<Ticks>(rt.alloc(), 8, 256)?;
    let mut margin = Margin::new(Table { rows }, 1500);
    show_time(rt, name, graph, &mut margin, &mut tables)
}

// Numbers 12 and 13, of which the lowest arc decides.
pub fn by_source(rt: &HostRuntime) -> io::Result<()> {
    let mut rows = delays(rt.alloc())?;
    let mut graph = selectors();
    let _ = graph.add_arc(5, 6);
    show(rt, "no row for arc 8", &graph, rows.as_slice())?;
    if let Some(row) = rows.get_mut(4) {
        *row = AnnotatedRow::new(700_000);
    }
    show_margin(rt, "arc 4 under a margin", &graph, rows.as_slice())?;
    if let Some(row) = rows.get_mut(3) {
        *row = AnnotatedRow::new(1_000_001);
    }
    show(rt, "the row of arc 3 out of range", &graph, rows.as_slice())?;
    show_margin(rt, "the same under a margin", &graph, rows.as_slice())?;
    let _ = graph.set_trim(0, 1_000_000);
    show(rt, "arc 0 with its trim", &graph, rows.as_slice())?;
    let _ = graph.set_trim(0, -1_000_000);
    show(rt, "arc 0 with 200 less a million", &graph, rows.as_slice())?;
    let _ = graph.drop_arc(0);
    show(rt, "without arc 0", &graph, rows.as_slice())
}

fn show_lengths(
    rt: &HostRuntime,
    name: &str,
    rows: &[AnnotatedRow],
    tables: &mut Tables<Ticks>,
) -> io::Result<()> {
    show_time(rt, name, &selectors(), &mut Table { rows }, tables)
}

// Number 14, which comes before 12.
pub fn by_length(rt: &HostRuntime) -> io::Result<()> {
    let heap = rt.alloc();
    let mut tables = written::<Ticks>(heap, 4097, 256)?;
    show_lengths(rt, "4097 lines", &[], &mut tables)?;
    let mut tables = written::<Ticks>(heap, 8, 255)?;
    show_lengths(rt, "255 nodes", &[], &mut tables)?;
    let mut tables = written::<Ticks>(heap, 8, 256)?;
    let _ = tables.arrivals.pop();
    show_lengths(rt, "an arrival too few", &[], &mut tables)?;
    let mut tables = written::<Ticks>(heap, 8, 256)?;
    let _ = tables.required.pop();
    show_lengths(rt, "a required time too few", &[], &mut tables)?;
    let mut tables = written::<Ticks>(heap, 8, 256)?;
    let _ = tables.slacks.pop();
    show_lengths(rt, "a slack too few", &[], &mut tables)
}
