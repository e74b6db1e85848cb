// Times a graph and says what came of it.
use crate::written::{all_is_blank, rest_is_blank};
use delay::{Fault, Source};
use graph::TimingGraph;
use measure::Measure;
use std::{fmt, io};
use tables::Tables;
use timing::TimeRefusal;

// The places of a row, with commas between them.
#[derive(Clone, Copy)]
struct Places<M>(M);

impl<M: Measure> fmt::Display for Places<M> {
    fn fmt<W: fmt::Write>(&self, f: &mut fmt::Formatter<W>) -> fmt::Result {
        let mut before = "";
        for place in 0..M::places() {
            if let Some(number) = self.0.place(place) {
                write!(f, "{before}{number}")?;
                before = ",";
            }
        }
        Ok(())
    }
}

// A refusal's number and what is given with it.
#[derive(Clone, Copy)]
struct Told(TimeRefusal);

impl fmt::Display for Told {
    fn fmt<W: fmt::Write>(&self, f: &mut fmt::Formatter<W>) -> fmt::Result {
        let number = self.0.number();
        match self.0 {
            TimeRefusal::SourceFault(Fault { cause, arc, level }) => {
                let cause = cause.number();
                write!(f, "{number}, cause {cause}, arc {arc}, level {level}")
            }
            TimeRefusal::OutOfRange(arc) => write!(f, "{number}, arc {arc}"),
            _ => write!(f, "{number}"),
        }
    }
}

fn show_slacks<M: Measure>(rt: &HostRuntime, tables: &Tables<M>) -> io::Result<()> {
    rt.print("  slacks:")?;
    for node in 0..=255 {
        if let Some(slack) = tables.slack(node) {
            let slack = Places(slack);
            print!(rt; " {node} has {slack};")?;
        }
    }
    rt.println("")
}

// The path of a node, into a list of so many places, and what the list then holds.
pub fn show_path<M: Measure>(
    rt: &HostRuntime,
    tables: &Tables<M>,
    node: i32,
    places: usize,
) -> io::Result<()> {
    let mut list = vec![in rt.alloc(); 7u16; places]?;
    match tables.trace(node, list.as_mut_slice()) {
        Ok(Some(count)) => print!(rt; "  path of {node}: {count} arcs, list")?,
        Ok(None) => print!(rt; "  path of {node}: none, list")?,
        Err(refusal) => {
            let number = refusal.number();
            print!(rt; "  path of {node}: refused {number}, list")?;
        }
    }
    for arc in list.iter() {
        print!(rt; " {arc}")?;
    }
    rt.println("")
}

// The count of lines and the slacks, or the refusal and whether the tables are blank.
pub fn show_time<M: Measure, S: Source>(
    rt: &HostRuntime,
    name: &str,
    graph: &TimingGraph,
    source: &mut S,
    tables: &mut Tables<M>,
) -> io::Result<()> {
    match tables.time(graph, source) {
        Ok(count) => {
            let blank = rest_is_blank(tables, count);
            println!(rt; "{name}: {count} lines, the rest blank: {blank}")?;
            show_slacks(rt, tables)
        }
        Err(refusal) => {
            let words = Told(refusal);
            let blank = all_is_blank(tables);
            println!(rt; "{name}: refused {words}, all blank: {blank}")
        }
    }
}
