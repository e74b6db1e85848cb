// The command `demo`: the two-selector block, from its files to its slacks and paths.
use crate::choices::Shown;
use crate::delays::Delays;
use crate::failure::Failure;
use crate::report::Report;
use crate::running::run_steps;
use crate::time::load_step;
use delay::load_delays;
use graph::GraphFile;
use history::{Step, StepReply};
use ledger::{Act, Reply};
use measure::{Early, Measure, Ticks};
use std::io;

// Two selectors, one behind the other, that always choose the same way.
pub const ARCS: &[u8] = b"from,to\n0,1\n0,2\n1,3\n2,3\n3,4\n3,5\n4,6\n5,6\nend,8\n";

pub const DELAYS: &[u8] = b"ticks,arc\n200,0\n100,1\n0,2\n0,3\n200,4\n100,5\n0,6\n0,7\nend,8\n";

pub const BOUNDS: &[u8] = b"node,side,ticks\n0,s,0\n6,e,350\nend,2\n";

pub const FALSE_SETS: &[u8] = b"set,from,to\n0,1,4\nend,1\n";

// A step and its name.
type Named<'a> = (&'static str, Step<'a>);

fn show_reply(rt: &HostRuntime, step: &str, reply: StepReply) -> io::Result<()> {
    match reply {
        StepReply::Act(Reply::FileRefused(refusal)) => println!(rt; "{step}: refused, {refusal}"),
        StepReply::Act(Reply::Refused(refusal)) => {
            let number = refusal.number();
            println!(rt; "{step}: refused, number {number}")
        }
        StepReply::Act(_) => println!(rt; "{step}: done"),
        StepReply::Time(Ok(count)) => println!(rt; "{step}: {count} lines"),
        _ => println!(rt; "{step}: refused"),
    }
}

// Runs the steps, and says what each answered.
fn run_shown<'a, M: Measure>(
    rt: &'a HostRuntime,
    named: &[Named<'_>],
    delays: &'a Delays,
) -> Result<Report<'a, M>, Failure> {
    let steps = named
        .iter()
        .map(|(_, step)| *step)
        .collect::<Vec<_>>(rt.alloc())?;
    let mut replies = vec![in rt.alloc(); StepReply::Time(Ok(0)); steps.len()]?;
    let report = run_steps(rt, steps.as_slice(), delays, replies.as_mut_slice())?;
    for ((name, _), reply) in named.iter().zip(replies.iter()) {
        show_reply(rt, name, *reply)?;
    }
    Ok(report)
}

fn without_sets(rt: &HostRuntime, delays: &Delays) -> Result<(), Failure> {
    println!(rt; "Without false sets, by ticks:")?;
    let steps = [
        ("load arcs.txt", load_step(GraphFile::Arcs, ARCS)),
        ("load bounds.txt", load_step(GraphFile::Bounds, BOUNDS)),
        ("time", Step::Time),
    ];
    let report = run_shown::<Ticks>(rt, &steps, delays)?;
    report.show_slacks()?;
    report.tell_worst()?;
    report.show_paths(Shown::Worst)
}

// With the false set, by any measure.
fn with_sets<M: Measure>(rt: &HostRuntime, delays: &Delays, node: i32) -> Result<(), Failure> {
    let steps = [
        ("load arcs.txt", load_step(GraphFile::Arcs, ARCS)),
        ("load bounds.txt", load_step(GraphFile::Bounds, BOUNDS)),
        (
            "load false.txt",
            load_step(GraphFile::FalseSets, FALSE_SETS),
        ),
        ("time", Step::Time),
    ];
    let report = run_shown::<M>(rt, &steps, delays)?;
    report.show_slacks()?;
    report.tell_worst()?;
    report.show_paths(Shown::Worst)?;
    report.show_paths(Shown::Node(node))
}

// The slacks under a trial of arc 0, and after it.
fn with_trial(rt: &HostRuntime, delays: &Delays) -> Result<(), Failure> {
    let open = Act::Open {
        arc: 0,
        ticks: -100,
    };
    let steps = [
        ("load arcs.txt", load_step(GraphFile::Arcs, ARCS)),
        ("load bounds.txt", load_step(GraphFile::Bounds, BOUNDS)),
        ("trial", Step::Act(open)),
        ("time", Step::Time),
        ("its end", Step::Act(Act::End)),
        ("time", Step::Time),
    ];
    println!(rt; "Without false sets, under a trial of arc 0 with -100 ticks:")?;
    let report = run_shown::<Ticks>(rt, &steps[..5], delays)?;
    report.show_slacks()?;
    println!(rt; "The same, and timed again after the trial's end:")?;
    let report = run_shown::<Ticks>(rt, &steps, delays)?;
    report.show_slacks()?;
    Ok(())
}

// A false-set file that lost its end line is refused, and the block is timed as if it had not been there.
fn with_cut_file(rt: &HostRuntime, delays: &Delays) -> Result<(), Failure> {
    println!(rt; "With a false-set file that was cut before its end line:")?;
    let cut = b"set,from,to\n0,1,4\n";
    let steps = [
        ("load arcs.txt", load_step(GraphFile::Arcs, ARCS)),
        ("load bounds.txt", load_step(GraphFile::Bounds, BOUNDS)),
        ("load cut.txt", load_step(GraphFile::FalseSets, cut)),
        ("time", Step::Time),
    ];
    let report = run_shown::<Ticks>(rt, &steps, delays)?;
    report.tell_worst()?;
    report.show_paths(Shown::Worst)
}

pub fn demo(rt: &HostRuntime) -> Result<(), Failure> {
    println!(rt; "Timing: two selectors, one behind the other, that always choose the same way")?;
    let mut delays = Delays::none(rt.alloc())?;
    if let Err(refusal) = load_delays(DELAYS, delays.rows.as_mut_slice()) {
        let path = String::from_str(rt.alloc(), "delays.txt")?;
        return Err(Failure::FileRefused { path, refusal });
    }
    println!(rt; "load delays.txt: done")?;
    without_sets(rt, &delays)?;
    println!(rt; "With the false set from node 1 to node 4, by ticks:")?;
    with_sets::<Ticks>(rt, &delays, 6)?;
    with_trial(rt, &delays)?;
    println!(rt; "With the false set, by early ticks:")?;
    with_sets::<Early<Ticks>>(rt, &delays, 6)?;
    with_cut_file(rt, &delays)
}
