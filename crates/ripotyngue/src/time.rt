// The command `time`: times the block of some files, and shows slacks and paths.
use crate::choices::{MeasureName, Shown, by_measure};
use crate::delays::Delays;
use crate::failure::Failure;
use crate::files::{FileText, FileTexts, show_files};
use crate::options::{Name, Options, read_options};
use crate::report::Report;
use crate::running::run_steps;
use delay::load_delays;
use graph::GraphFile;
use history::{Step, StepReply};
use ledger::{Act, Call, Reply};
use measure::{Early, Measure, StagedTicks, Ticks};
use std::env::Args;

pub fn load_step(file: GraphFile, bytes: &[u8]) -> Step<'_> {
    Step::Act(Act::Make(Call::Load { file, bytes }))
}

fn accepted(file: &FileText, reply: StepReply) -> Result<(), Failure> {
    match reply {
        StepReply::Act(Reply::FileRefused(refusal)) => Err(file.refused(refusal)),
        _ => Ok(()),
    }
}

// What the timing answered, and then what it found.
fn show_timing<M: Measure>(
    report: &Report<'_, M>,
    reply: StepReply,
    shown: Shown,
) -> Result<(), Failure> {
    let StepReply::Time(answer) = reply else {
        return Err(Failure::Misfit);
    };
    let count = answer?;
    println!(report.rt; "timed: {count} lines")?;
    report.show_slacks()?;
    report.tell_worst()?;
    report.show_paths(shown)
}

// Loads the files and times their block, as one history.
fn time_texts<M: Measure>(
    rt: &HostRuntime,
    texts: &FileTexts,
    delays: &Delays,
    shown: Shown,
) -> Result<(), Failure> {
    let steps = [
        load_step(GraphFile::Arcs, texts.arcs.bytes.as_slice()),
        load_step(GraphFile::Bounds, texts.bounds.bytes.as_slice()),
        load_step(GraphFile::FalseSets, texts.false_sets.bytes.as_slice()),
        Step::Time,
    ];
    let mut replies = [StepReply::Time(Ok(0)); 4];
    let report = run_steps::<M>(rt, &steps, delays, &mut replies)?;
    let [arcs, bounds, sets, timing] = replies;
    accepted(&texts.arcs, arcs)?;
    accepted(&texts.bounds, bounds)?;
    accepted(&texts.false_sets, sets)?;
    show_files(rt, texts, &report.graph, delays)?;
    show_timing(&report, timing, shown)
}

fn read_texts(
    rt: &HostRuntime,
    arcs: Option<String>,
    delays: Option<String>,
    bounds: Option<String>,
    false_sets: Option<String>,
) -> Result<FileTexts, Failure> {
    Ok(FileTexts {
        arcs: FileText::given(rt, Name::Arcs, arcs)?,
        delays: FileText::given(rt, Name::Delays, delays)?,
        bounds: FileText::given(rt, Name::Bounds, bounds)?,
        false_sets: match false_sets {
            Some(path) => FileText::read(rt, path)?,
            None => FileText::no_sets(rt.alloc())?,
        },
    })
}

pub fn time_command(rt: &HostRuntime, words: Args) -> Result<(), Failure> {
    let Options {
        arcs,
        delays,
        bounds,
        false_sets,
        measure,
        permille,
        shown,
    } = read_options(words)?;
    let measure = measure.unwrap_or(MeasureName::Ticks);
    let shown = shown.unwrap_or(Shown::Worst);
    let texts = read_texts(rt, arcs, delays, bounds, false_sets)?;
    let mut delays = Delays::none(rt.alloc())?;
    delays.set_margin(permille);
    load_delays(texts.delays.bytes.as_slice(), delays.rows.as_mut_slice()).map_err(|refusal| texts
        .delays
        .refused(refusal))?;
    println!(rt; "measure: {measure}")?;
    by_measure!(measure, time_texts(rt, &texts, &delays, shown))
}
