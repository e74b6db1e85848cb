// The command `demo-parts`: built-in files, good ones and damaged ones, through the reader; then measures and sources.
use crate::check::{judge, status};
use crate::demo::{ARCS, BOUNDS, DELAYS, FALSE_SETS};
use crate::demo_measures::show_measures;
use crate::demo_sources::show_sources;
use crate::failure::Failure;
use reader::{Kind, LIMIT, count};
use std::io;
use std::process::ExitCode;

// Bytes that are read as a file of a kind.
#[derive(Clone, Copy)]
struct Sample<'a> {
    name: &'static str,
    kind: Kind,
    bytes: &'a [u8],
}

impl<'a> Sample<'a> {
    fn new(name: &'static str, kind: Kind, bytes: &'a [u8]) -> Sample<'a> {
        Sample { name, kind, bytes }
    }
}

// The files of the block.
fn block_samples() -> [Sample<'static>; 4] {
    [
        Sample::new("arcs.txt", Kind::Arcs, ARCS),
        Sample::new("delays.txt", Kind::Delays, DELAYS),
        Sample::new("bounds.txt", Kind::Bounds, BOUNDS),
        Sample::new("false.txt", Kind::FalseSets, FALSE_SETS),
    ]
}

// Says of each what the reader makes of it, and answers how many it took.
fn judge_all(rt: &HostRuntime, samples: &[Sample<'_>]) -> io::Result<usize> {
    let mut taken = 0usize;
    for sample in samples {
        if judge(rt, sample.name, sample.kind, sample.bytes)? {
            taken = taken.saturating_add(1);
        }
    }
    Ok(taken)
}

fn good_files(rt: &HostRuntime) -> io::Result<bool> {
    rt.println("Good files:")?;
    let taken = judge_all(rt, &block_samples())?;
    let none = judge(rt, "no-sets.txt", Kind::FalseSets, b"set,from,to\nend,0\n")?;
    Ok(taken == 4 && none)
}

// How many beginnings of a file, short of its end, are taken.
fn taken_beginnings(kind: Kind, bytes: &[u8]) -> usize {
    (0..bytes.len())
        .filter_map(|end| bytes.get(..end))
        .filter(|beginning| count(kind, beginning).is_ok())
        .count()
}

fn cut_files(rt: &HostRuntime) -> io::Result<bool> {
    rt.println("The same files, cut short at every byte:")?;
    let mut well = true;
    for Sample { name, kind, bytes } in block_samples() {
        let all = bytes.len();
        let taken = taken_beginnings(kind, bytes);
        println!(rt; "{name}: of its {all} beginnings short of its end, {taken} are taken")?;
        well &= taken == 0;
    }
    Ok(well)
}

// Fills the bytes with junk that is the same in every run, and has no line feed.
fn scramble(bytes: &mut [u8]) {
    let mut state = 7u32;
    for byte in bytes.iter_mut() {
        state = state.wrapping_mul(1_103_515_245).wrapping_add(12_345);
        *byte = 32 + ((state >> 16) % 95) as u8;
    }
}

fn damaged_files(rt: &HostRuntime) -> io::Result<bool> {
    rt.println("Damaged files:")?;
    let mut junk = [0u8; LIMIT + 1];
    scramble(&mut junk);
    let sets = Kind::FalseSets;
    let taken = judge_all(
        rt,
        &[
            Sample::new("no bytes", sets, b""),
            Sample::new("cut in a value line", sets, b"set,from,to\n0,1"),
            Sample::new("cut before the end line", sets, b"set,from,to\n0,1,4\n"),
            Sample::new("a wrong count", Kind::Arcs, b"from,to\n0,1\nend,2\n"),
            Sample::new("a name twice", Kind::Arcs, b"from,from\nend,0\n"),
            Sample::new("a leading zero", Kind::Arcs, b"from,to\n0,1\n0,02\nend,2\n"),
            Sample::new(
                "a side that is none",
                Kind::Bounds,
                b"node,side,ticks\n0,x,0\nend,1\n",
            ),
            Sample::new("bytes after the end", Kind::Delays, b"arc,ticks\nend,0\n\n"),
            Sample::new("60000 bytes of junk", sets, &junk[..LIMIT]),
            Sample::new("60001 bytes of junk", sets, &junk),
        ],
    )?;
    Ok(taken == 0)
}

// It went well where every file was judged as it should be.
pub fn demo_parts(rt: &HostRuntime) -> Result<ExitCode, Failure> {
    let good = good_files(rt)?;
    let cut = cut_files(rt)?;
    let damaged = damaged_files(rt)?;
    let well = good && cut && damaged;
    if well {
        rt.println("Each good file was taken whole, and each damaged one was refused.")?;
    }
    show_measures(rt)?;
    show_sources(rt)?;
    Ok(status(well))
}
