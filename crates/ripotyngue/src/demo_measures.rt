// What measures answer, step by step.
use crate::rows::commas;
use measure::{Early, Measure, StagedTicks, Ticks};
use std::alloc::{AllocError, Global};
use std::io;

fn optional_text<M: Measure>(heap: Global, value: Option<M>) -> Result<String, AllocError> {
    match value {
        Some(row) => {
            let row = commas(row);
            format!(in heap; "({row})")
        }
        None => format!(in heap; "out of range"),
    }
}

fn show_rows<M: Measure>(rt: &HostRuntime, name: &str) -> io::Result<()> {
    println!(rt; "{name}")?;
    for count in [7, -5, 1_000_001] {
        let time = optional_text(rt.alloc(), M::time(count))?;
        let arc = optional_text(rt.alloc(), M::arc(count))?;
        println!(rt; "  {count}: time {time}, arc {arc}")?;
    }
    Ok(())
}

// Two arcs of 3 ticks against one of 6, where the measure tells them apart.
fn show_order<M: Measure>(rt: &HostRuntime, name: &str) -> io::Result<()> {
    let (Some(three), Some(six)) = (M::arc(3), M::arc(6)) else {
        return Ok(());
    };
    let Some(twice) = three.sum(three) else {
        return Ok(());
    };
    let two_arcs = commas(twice);
    let one_arc = commas(six);
    let first = twice.not_after(six);
    let second = six.not_after(twice);
    println!(rt; "{name}: ({two_arcs}) not after ({one_arc}): {first}, and the other way: {second}")
}

pub fn show_measures(rt: &HostRuntime) -> io::Result<()> {
    println!(rt; "Measures: the rows of a few tick counts")?;
    show_rows::<Ticks>(rt, "ticks")?;
    show_rows::<StagedTicks>(rt, "ticks then stages")?;
    show_rows::<Early<Ticks>>(rt, "early over ticks")?;
    show_rows::<Early<StagedTicks>>(rt, "early over ticks then stages")?;
    println!(rt; "Order: two arcs of 3 ticks and one of 6")?;
    show_order::<Ticks>(rt, "ticks")?;
    show_order::<StagedTicks>(rt, "ticks then stages")?;
    show_order::<Early<StagedTicks>>(rt, "early over ticks then stages")
}
