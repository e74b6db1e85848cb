// Loads a false-set file of 60,000 bytes over a block of 256 nodes and 1,024 arcs. With an argument it prints the
// nanoseconds of the fastest of some loads, else what became of one.
#![tactic(auto)]

use anyhow::anyhow;
use graph::{GraphFile, TimingGraph};
use std::alloc::{AllocError, Global};
use std::env;
use std::time::Instant;

// A chain through all nodes, and arcs over it.
fn block() -> TimingGraph {
    let mut graph = TimingGraph::new();
    for i in 0..1024 {
        let from = i % 255;
        let to = if i < 255 {
            i + 1
        } else {
            from + 1 + i * 31 % (255 - from)
        };
        let _ = graph.add_arc(from, to);
    }
    graph
}

fn file(heap: Global) -> Result<String, AllocError> {
    let mut text = String::from_str(heap, "set,from,to\n")?;
    for k in 0..7151u32 {
        let set = k % 10;
        let from = k % 30;
        let to = 40 + k * 13 % 216;
        let line = format!(in heap; "{set},{from},{to}\n")?;
        text.push_str(&line)?;
    }
    text.push_str("end,7151\n")?;
    Ok(text)
}

fn fastest(rt: &HostRuntime, graph: &mut TimingGraph, bytes: &[u8]) -> anyhow::Result<u128> {
    let mut best = u128::MAX;
    for _ in 0..20 {
        let start = Instant::now(rt)?;
        let done = graph.load(GraphFile::FalseSets, bytes);
        let taken = start.elapsed(rt)?.as_nanos();
        if done.is_err() {
            return Err(anyhow!("the file was refused"));
        }
        best = best.min(taken);
    }
    Ok(best)
}

fn main(rt: HostRuntime) -> anyhow::Result<()> {
    let text = file(rt.alloc())?;
    let mut graph = block();
    if env::args(&rt)?.count() > 1 {
        let best = fastest(&rt, &mut graph, text.as_bytes())?;
        println!(rt; "{best}")?;
        return Ok(());
    }
    let size = text.len();
    let done = graph.load(GraphFile::FalseSets, text.as_bytes()).is_ok();
    println!(rt; "{size} bytes, accepted: {done}")?;
    Ok(())
}
