// The files of the command `time`, and what each gave.
use crate::delays::Delays;
use crate::failure::Failure;
use crate::input::read_file;
use crate::options::Name;
use graph::TimingGraph;
use reader::{FileRefusal, Kind, count};
use std::alloc::{AllocError, Global};
use std::io;

// Stands for the false sets where no file of them is given.
const NO_SETS: &[u8] = b"set,from,to\nend,0\n";

#[derive(Drop)]
pub struct FileText {
    pub path: String,
    pub bytes: Vec<u8>,
}

#[derive(Drop)]
pub struct FileTexts {
    pub arcs: FileText,
    pub delays: FileText,
    pub bounds: FileText,
    pub false_sets: FileText,
}

impl FileText {
    // The file of an option that must be given.
    pub fn given(rt: &HostRuntime, name: Name, path: Option<String>) -> Result<FileText, Failure> {
        FileText::read(rt, path.ok_or(Failure::Missing(name))?)
    }

    pub fn read(rt: &HostRuntime, path: String) -> Result<FileText, Failure> {
        match read_file(rt, path.as_str()) {
            Ok(bytes) => Ok(FileText { path, bytes }),
            Err(error) => Err(Failure::Unread { path, error }),
        }
    }

    pub fn no_sets(heap: Global) -> Result<FileText, AllocError> {
        Ok(FileText {
            path: String::from_str(heap, "(no false sets)")?,
            bytes: NO_SETS.to_vec(heap)?,
        })
    }

    pub fn refused(&self, refusal: FileRefusal) -> Failure {
        match self.path.clone() {
            Ok(path) => Failure::FileRefused { path, refusal },
            Err(error) => Failure::from(error),
        }
    }

    fn value_lines(&self, kind: Kind) -> usize {
        count(kind, self.bytes.as_slice()).unwrap_or(0)
    }
}

fn show_sets(rt: &HostRuntime, file: &FileText, graph: &TimingGraph) -> io::Result<()> {
    let path = file.path.as_str();
    let lines = file.value_lines(Kind::FalseSets);
    let live = (0..1024).filter_map(|number| graph.arc(number));
    let arcs = live.filter(|arc| arc.sets != 0).count();
    let live = (0..1024).filter_map(|number| graph.arc(number));
    let sets = live.fold(0u16, |sets, arc| sets | arc.sets).count_ones();
    println!(rt; "{path}: {lines} value lines, {sets} sets that hold {arcs} arcs")
}

// One line for each file.
pub fn show_files(
    rt: &HostRuntime,
    texts: &FileTexts,
    graph: &TimingGraph,
    delays: &Delays,
) -> io::Result<()> {
    let path = texts.arcs.path.as_str();
    let lines = texts.arcs.value_lines(Kind::Arcs);
    let arcs = graph.taken();
    println!(rt; "{path}: {lines} value lines, {arcs} arcs")?;
    let path = texts.delays.path.as_str();
    let lines = texts.delays.value_lines(Kind::Delays);
    let marked = delays.rows.iter().filter(|row| row.marked).count();
    println!(rt; "{path}: {lines} value lines, a delay for {marked} arcs")?;
    let path = texts.bounds.path.as_str();
    let lines = texts.bounds.value_lines(Kind::Bounds);
    let starts = (0..=255)
        .filter(|node| graph.start(*node).is_some())
        .count();
    let ends = (0..=255).filter(|node| graph.end(*node).is_some()).count();
    println!(rt; "{path}: {lines} value lines, {starts} starts, {ends} ends")?;
    show_sets(rt, &texts.false_sets, graph)
}
