// What delay sources and their layers answer, step by step.
use delay::{Annotated, AnnotatedRow, Fault, LoadRow, Margin, Memo, Source, Table, load_delays};
use std::io;

fn show_entry(rt: &HostRuntime, arc: u16, entry: Result<i32, Fault>) -> io::Result<()> {
    match entry {
        Ok(ticks) => println!(rt; "  arc {arc}: {ticks} ticks"),
        Err(fault) => {
            let cause = fault.cause.number();
            let named = fault.arc;
            let level = fault.level;
            println!(rt; "  arc {arc}: fault of cause {cause} at arc {named}, level {level}")
        }
    }
}

fn show_source<S: Source>(
    rt: &HostRuntime,
    name: &str,
    source: &mut S,
    arcs: &[u16],
) -> io::Result<()> {
    let level = source.level();
    println!(rt; "{name}, level {level}")?;
    for arc in arcs {
        show_entry(rt, *arc, source.delay(*arc))?;
    }
    Ok(())
}

fn load_row(intrinsic: i32, slope: i32, load: u16) -> LoadRow {
    LoadRow {
        marked: true,
        intrinsic,
        slope,
        load,
    }
}

// Row 0 is loaded twice, row 5 not at all, and row 4 is written past the range of a tick count.
fn loaded_table(rt: &HostRuntime) -> io::Result<[AnnotatedRow; 1024]> {
    let mut rows = [AnnotatedRow::BLANK; 1024];
    let file = b"arc,ticks\n0,200\n1,-1\n2,1\n3,700000\n32,90\n0,3\nend,6\n";
    match load_delays(file, &mut rows) {
        Ok(()) => println!(rt; "delay file: loaded")?,
        Err(refusal) => println!(rt; "delay file: refused, {refusal}")?,
    }
    rows[4] = AnnotatedRow::new(1_000_001);
    Ok(rows)
}

pub fn show_sources(rt: &HostRuntime) -> io::Result<()> {
    println!(rt; "Sources: the ticks or the fault of a few arcs")?;
    let rows = loaded_table(rt)?;
    let mut table: Annotated = Table { rows: &rows };
    show_source(rt, "annotated table", &mut table, &[0, 1, 4, 5, 1024])?;
    let loads = [load_row(100, 25, 4), load_row(0, i32::MIN, 65535)];
    let mut formula = Table { rows: &loads };
    show_source(rt, "load formula", &mut formula, &[0, 1, 2])?;
    let mut margin = Margin::new(table, 1500);
    show_source(
        rt,
        "margin of 1,500 over the table",
        &mut margin,
        &[0, 1, 2, 3, 4, 5],
    )?;
    let mut memo = Memo::new(margin);
    show_source(
        rt,
        "memo over the margin, asked twice",
        &mut memo,
        &[0, 32, 0, 32],
    )?;
    let mut second = Margin::new(memo, 2500);
    show_source(
        rt,
        "margin of 2,500, which counts as 2,000, over the memo",
        &mut second,
        &[0, 3, 5],
    )
}
