// Traces that are refused.
use crate::block::{delays, selectors};
use crate::show::show_path;
use crate::written::written;
use delay::Table;
use measure::Ticks;
use std::io;
use tables::Tables;

fn timed(rt: &HostRuntime) -> io::Result<Tables<Ticks>> {
    let rows = delays(rt.alloc())?;
    let mut tables = written::<Ticks>(rt.alloc(), 10, 256)?;
    let rows = rows.as_slice();
    let _ = tables.time(&selectors(), &mut Table { rows });
    Ok(tables)
}

// A link of line 4, where node 4 has its slack, written over.
fn broken(rt: &HostRuntime, name: &str, back: (u16, u16), fore: (u16, u16)) -> io::Result<()> {
    print!(rt; "{name}:")?;
    let mut tables = timed(rt)?;
    if let Some(line) = tables.lines.get_mut(4) {
        line.back_arc = back.0;
        line.back_line = back.1;
        line.fore_arc = fore.0;
        line.fore_line = fore.1;
    }
    show_path(rt, &tables, 4, 4)
}

// The numbers 6, 16, 17 and 14; the list of a refused trace is full of 1,024.
pub fn refused(rt: &HostRuntime) -> io::Result<()> {
    println!(rt; "traces without sets:")?;
    let mut tables = timed(rt)?;
    show_path(rt, &tables, -1, 2)?;
    show_path(rt, &tables, 256, 2)?;
    show_path(rt, &tables, 6, 3)?;
    show_path(rt, &tables, 6, 4)?;
    let _ = tables.nodes.pop();
    show_path(rt, &tables, 256, 3)?;
    broken(rt, "links as they were", (4, 3), (6, 6))?;
    broken(rt, "back to itself", (4, 4), (6, 6))?;
    broken(rt, "fore to itself", (4, 3), (6, 4))?;
    broken(rt, "an arc above 1024", (1025, 3), (6, 6))?;
    broken(rt, "an arc and no line", (4, 4096), (6, 6))?;
    broken(rt, "a line and no arc", (4, 3), (1024, 6))?;
    broken(rt, "beyond the table", (4, 3), (6, 10))?;
    broken(rt, "into a blank line", (4, 3), (6, 7))
}
