// Times blocks of 1,024 arcs with false sets. It prints of each how many lines there are, how many crossings of an arc by
// a line of the node that it leaves, and the sum of the slacks, and with an argument the nanoseconds of the fastest of
// some timings before them.
#![tactic(auto)]

mod block;

use anyhow::ensure;
use block::{Dice, add_delays, layered, selectors};
use delay::{AnnotatedRow, Table};
use graph::TimingGraph;
use measure::{Measure, Ticks};
use std::env;
use std::time::Instant;
use tables::Tables;

fn sum_of_slacks(tables: &Tables<Ticks>) -> i64 {
    let slacks = tables.slacks.iter().filter_map(|slack| slack.place(0));
    slacks.fold(0i64, |sum, ticks| sum.wrapping_add(i64::from(ticks)))
}

fn fastest(
    rt: &HostRuntime,
    graph: &TimingGraph,
    rows: &[AnnotatedRow],
    tables: &mut Tables<Ticks>,
    rounds: u32,
) -> anyhow::Result<u128> {
    let mut best = u128::MAX;
    for _ in 0..rounds {
        let start = Instant::now(rt)?;
        let done = tables.time(graph, &mut Table { rows });
        let taken = start.elapsed(rt)?.as_nanos();
        ensure!(done.is_ok(), "the timing was refused");
        best = best.min(taken);
    }
    Ok(best)
}

// How many arcs leave each node.
fn fan_outs(graph: &TimingGraph) -> [u64; 256] {
    let mut fan_outs = [0u64; 256];
    for number in 0..graph.taken() {
        if let Some(arc) = graph.arc(number) {
            let from = arc.from as usize;
            fan_outs[from] = fan_outs[from].wrapping_add(1);
        }
    }
    fan_outs
}

// How often a line meets an arc that leaves its node.
fn crossings(graph: &TimingGraph, tables: &Tables<Ticks>) -> u64 {
    let fan_outs = fan_outs(graph);
    let arcs = tables
        .lines
        .iter()
        .filter_map(|line| fan_outs.get(line.node as usize));
    arcs.fold(0u64, |sum, count| sum.wrapping_add(*count))
}

// Prints what the timing of a block comes to, and before it how long the fastest of so many timings took.
fn report(
    rt: &HostRuntime,
    name: &str,
    graph: &TimingGraph,
    dice: &mut Dice,
    rounds: u32,
) -> anyhow::Result<()> {
    let mut rows = [AnnotatedRow::BLANK; 1024];
    add_delays(&mut rows, dice);
    let mut tables = Tables::<Ticks>::blank(rt.alloc(), 4096)?;
    if rounds > 0 {
        let best = fastest(rt, graph, &rows, &mut tables, rounds)?;
        print!(rt; "{best} ns, ")?;
    }
    let lines = tables.time(graph, &mut Table { rows: &rows }).unwrap_or(0);
    let crossings = crossings(graph, &tables);
    let sum = sum_of_slacks(&tables);
    println!(rt; "{name}: {lines} lines, {crossings} crossings, sum of slacks {sum}")?;
    Ok(())
}

fn main(rt: HostRuntime) -> anyhow::Result<()> {
    let rounds = if env::args(&rt)?.count() > 1 { 2000 } else { 0 };
    let mut dice = Dice::new();
    let layers = layered(&mut dice);
    report(&rt, "1,024 arcs in layers", &layers, &mut dice, rounds)?;
    report(
        &rt,
        "1,024 arcs through selectors",
        &selectors(),
        &mut dice,
        rounds / 10,
    )
}
