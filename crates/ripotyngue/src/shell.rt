// The command `shell`: commands from the input, one answer each.
use crate::answers::{
    answer_call, answer_error, answer_load, answer_ok, answer_refused, answer_sheet, answer_slacks,
    answer_time, answer_trace,
};
use crate::choices::{MeasureName, by_measure};
use crate::command::{Command, NoCommand, parse};
use crate::delays::Delays;
use crate::input::read_file;
use crate::limits::{LONGEST_PATH, MOST_LINES};
use crate::words::DOES_NOT_FIT;
use delay::load_delays;
use graph::{GraphFile, Refusal, TimingGraph};
use ledger::make;
use measure::{Early, Measure, StagedTicks, Ticks};
use reader::Kind;
use std::io;
use std::io::{BufRead, BufReader, Stdin};
use tables::Tables;

// What the shell holds beside the tables.
#[derive(Drop)]
struct Held {
    graph: TimingGraph,
    delays: Delays,
    measure: MeasureName,
    length: usize,
}

// Why the shell stops to serve: for new tables, or at the end of the input.
#[derive(Clone, Copy, PartialEq)]
enum Stop {
    NewTables,
    EndOfInput,
}

fn next_line(rt: &HostRuntime, input: &mut BufReader<Stdin>) -> io::Result<Option<Vec<u8>>> {
    let mut line = Vec::new(rt.alloc());
    let count = input.read_until(b'\n', &mut line)?;
    if count == 0 { Ok(None) } else { Ok(Some(line)) }
}

// The commands that look at the graph and leave it as it is; another is turned down in the words given.
fn look<M: Measure>(
    rt: &HostRuntime,
    graph: &TimingGraph,
    delays: &Delays,
    tables: &mut Tables<M>,
    command: Command<'_>,
    otherwise: NoCommand,
) -> io::Result<()> {
    match command {
        Command::Pass => Ok(()),
        Command::Time => answer_time(rt, delays.time(graph, tables)),
        Command::Sheet => answer_sheet(rt, tables),
        Command::Slacks => answer_slacks(rt, tables),
        Command::Trace { node } => {
            let mut list = [0; LONGEST_PATH];
            let answer = tables.trace(node, &mut list);
            answer_trace(rt, &list, answer)
        }
        _ => answer_error(rt, otherwise),
    }
}

// Reads on while a trial is open, and answers why the shell stops, if it does.
fn under_trial<M: Measure>(
    rt: &HostRuntime,
    input: &mut BufReader<Stdin>,
    held: &mut Held,
    tables: &mut Tables<M>,
    arc: i32,
    ticks: i32,
) -> io::Result<Option<Stop>> {
    let trial = held.graph.trial(arc, ticks);
    match trial.refusal() {
        None => answer_ok(rt)?,
        Some(refusal) => answer_refused(rt, refusal.number())?,
    }
    for _ in 0..u64::MAX {
        let Some(line) = next_line(rt, input)? else {
            break;
        };
        match parse(line.as_slice()) {
            Ok(Command::EndTrial) => {
                answer_ok(rt)?;
                return Ok(None);
            }
            Ok(command) => look(
                rt,
                trial.graph(),
                &held.delays,
                tables,
                command,
                NoCommand::InTrial,
            )?,
            Err(error) => answer_error(rt, error)?,
        }
    }
    Ok(Some(Stop::EndOfInput))
}

fn load_bytes(rt: &HostRuntime, held: &mut Held, kind: Kind, bytes: &[u8]) -> io::Result<()> {
    let answer = match kind {
        Kind::Arcs => held.graph.load(GraphFile::Arcs, bytes),
        Kind::Bounds => held.graph.load(GraphFile::Bounds, bytes),
        Kind::FalseSets => held.graph.load(GraphFile::FalseSets, bytes),
        Kind::Delays => load_delays(bytes, held.delays.rows.as_mut_slice()),
    };
    answer_load(rt, answer)
}

fn load_file(rt: &HostRuntime, held: &mut Held, kind: Kind, path: &str) -> io::Result<()> {
    match read_file(rt, path) {
        Ok(bytes) => load_bytes(rt, held, kind, bytes.as_slice()),
        Err(error) => println!(rt; "error: {path}: cannot be read: {error}"),
    }
}

fn answer_out_of_range(rt: &HostRuntime) -> io::Result<()> {
    answer_refused(rt, Refusal::OutOfRange.number())
}

fn set_margin(rt: &HostRuntime, delays: &mut Delays, number: i32) -> io::Result<()> {
    let Ok(permille) = u16::try_from(number) else {
        return answer_out_of_range(rt);
    };
    delays.set_margin(Some(permille));
    answer_ok(rt)
}

// Sets the length of the line tables. Tables that are too long are one line too long.
fn set_length(rt: &HostRuntime, held: &mut Held, lines: i32) -> io::Result<Option<Stop>> {
    if lines < 0 || lines == DOES_NOT_FIT {
        answer_out_of_range(rt)?;
        return Ok(None);
    }
    held.length = (lines as usize).min(MOST_LINES + 1);
    answer_ok(rt)?;
    Ok(Some(Stop::NewTables))
}

// A command that is served while no trial is open, but for a trial. It answers why the shell stops, if it does.
fn serve_one<M: Measure>(
    rt: &HostRuntime,
    held: &mut Held,
    tables: &mut Tables<M>,
    command: Command<'_>,
) -> io::Result<Option<Stop>> {
    match command {
        Command::Make(call) => answer_call(rt, make(&mut held.graph, call))?,
        Command::Load { kind, path } => load_file(rt, held, kind, path)?,
        Command::Margin(Some(number)) => set_margin(rt, &mut held.delays, number)?,
        Command::Margin(None) => {
            held.delays.set_margin(None);
            answer_ok(rt)?;
        }
        Command::Lines(lines) => return set_length(rt, held, lines),
        Command::Measure(measure) => {
            held.measure = measure;
            answer_ok(rt)?;
            return Ok(Some(Stop::NewTables));
        }
        other => look(
            rt,
            &held.graph,
            &held.delays,
            tables,
            other,
            NoCommand::NoTrial,
        )?,
    }
    Ok(None)
}

// Serves commands with one set of tables.
fn serve<M: Measure>(
    rt: &HostRuntime,
    input: &mut BufReader<Stdin>,
    held: &mut Held,
) -> io::Result<Stop> {
    let mut tables = Tables::<M>::blank(rt.alloc(), held.length)?;
    for _ in 0..u64::MAX {
        let Some(line) = next_line(rt, input)? else {
            break;
        };
        let stop = match parse(line.as_slice()) {
            Ok(Command::Trial { arc, ticks }) => {
                under_trial(rt, input, held, &mut tables, arc, ticks)?
            }
            Ok(command) => serve_one(rt, held, &mut tables, command)?,
            Err(error) => {
                answer_error(rt, error)?;
                None
            }
        };
        if let Some(stop) = stop {
            return Ok(stop);
        }
    }
    Ok(Stop::EndOfInput)
}

pub fn shell(rt: &HostRuntime) -> io::Result<()> {
    let mut input = BufReader::new(rt.alloc(), rt.stdin())?;
    let mut held = Held {
        graph: TimingGraph::new(),
        delays: Delays::none(rt.alloc())?,
        measure: MeasureName::Ticks,
        length: MOST_LINES,
    };
    for _ in 0..u64::MAX {
        if by_measure!(held.measure, serve(rt, &mut input, &mut held))? == Stop::EndOfInput {
            break;
        }
    }
    Ok(())
}
