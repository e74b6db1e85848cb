// What the shell answers, one line for each call, or a list with an end line.
use crate::rows::{ListOrNone, list};
use ledger::Reply;
use measure::Measure;
use reader::FileRefusal;
use sheet::{Line, TraceRefusal};
use std::fmt::Display;
use std::io;
use tables::Tables;
use timing::TimeRefusal;

// A line of the sheet that no timing wrote has this node.
const NO_NODE: u16 = Line::BLANK.node;

pub fn answer_ok(rt: &HostRuntime) -> io::Result<()> {
    rt.println("ok")
}

pub fn answer_error(rt: &HostRuntime, error: impl Display + Drop) -> io::Result<()> {
    println!(rt; "error: {error}")
}

pub fn answer_refused(rt: &HostRuntime, number: u8) -> io::Result<()> {
    println!(rt; "refused {number}")
}

pub fn answer_load(rt: &HostRuntime, answer: Result<(), FileRefusal>) -> io::Result<()> {
    match answer {
        Ok(()) => answer_ok(rt),
        Err(refusal) => {
            let number = refusal.fault.number();
            let line = refusal.line;
            println!(rt; "refused {number} line {line}")
        }
    }
}

pub fn answer_call(rt: &HostRuntime, reply: Reply) -> io::Result<()> {
    match reply {
        Reply::Taken(number) => println!(rt; "arc {number}"),
        Reply::Refused(refusal) => answer_refused(rt, refusal.number()),
        Reply::FileRefused(refusal) => answer_load(rt, Err(refusal)),
        _ => answer_ok(rt),
    }
}

pub fn answer_time(rt: &HostRuntime, answer: Result<usize, TimeRefusal>) -> io::Result<()> {
    match answer {
        Ok(count) => println!(rt; "lines {count}"),
        Err(TimeRefusal::SourceFault(fault)) => {
            let cause = fault.cause.number();
            let arc = fault.arc;
            let level = fault.level;
            println!(rt; "refused 12 cause {cause} arc {arc} level {level}")
        }
        Err(TimeRefusal::OutOfRange(arc)) => println!(rt; "refused 13 arc {arc}"),
        Err(refusal) => answer_refused(rt, refusal.number()),
    }
}

// One write for a line: each write of standard output is a call of the system.
fn answer_line<M: Measure>(
    rt: &HostRuntime,
    i: usize,
    line: Line,
    arrival: M,
    required: M,
) -> io::Result<()> {
    let Line {
        node,
        tag,
        back_arc,
        back_line,
        fore_arc,
        fore_line,
        required: has_required,
    } = line;
    let arrival = list(arrival);
    let required = ListOrNone(has_required.then_some(required));
    println!(rt;
        "line {i} node {node} tag {tag} arrival {arrival} back {back_arc} {back_line} required {required} fore {fore_arc} {fore_line}"
    )
}

// The lines that the last timing wrote.
pub fn answer_sheet<M: Measure>(rt: &HostRuntime, tables: &Tables<M>) -> io::Result<()> {
    let times = tables.arrivals.iter().zip(tables.required.iter());
    let lines = tables.lines.iter().zip(times).enumerate();
    for (i, (line, (arrival, required))) in lines {
        if line.node >= NO_NODE {
            break;
        }
        answer_line(rt, i, *line, *arrival, *required)?;
    }
    rt.println("end")
}

// The nodes that have a slack.
pub fn answer_slacks<M: Measure>(rt: &HostRuntime, tables: &Tables<M>) -> io::Result<()> {
    let entries = tables.nodes.iter().zip(tables.slacks.iter()).enumerate();
    for (node, (entry, slack)) in entries {
        if entry.timed {
            let slack = list(*slack);
            let line = entry.line;
            println!(rt; "node {node} slack {slack} line {line}")?;
        }
    }
    rt.println("end")
}

pub fn answer_trace(
    rt: &HostRuntime,
    arcs: &[u16],
    answer: Result<Option<usize>, TraceRefusal>,
) -> io::Result<()> {
    match answer {
        Ok(Some(count)) => {
            rt.print("path")?;
            for arc in arcs.iter().take(count) {
                print!(rt; " {arc}")?;
            }
            rt.println("")
        }
        Ok(None) => rt.println("none"),
        Err(refusal) => answer_refused(rt, refusal.number()),
    }
}
