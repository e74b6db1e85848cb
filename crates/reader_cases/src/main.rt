// Runs a table of files through the reader. Each line of the standard input is a case: the kind, the expected number (0
// for an accepted file), the expected line (or the count of value lines), and the file, in which `|` stands for a
// line feed, `~` for a carriage return and `_` for a space. An empty line and one that begins with `#` say nothing.
#![tactic(auto)]

mod longest;

use longest::at_the_limit;
use reader::{FileRefusal, Kind, count};
use std::alloc::{AllocError, Global};
use std::io;

// What a case expects, or what came of it.
#[derive(Clone, Copy, PartialEq, Eq)]
pub struct Verdict {
    pub number: u8,
    pub place: usize,
}

impl From<Result<usize, FileRefusal>> for Verdict {
    fn from(counted: Result<usize, FileRefusal>) -> Verdict {
        match counted {
            Ok(lines) => Verdict {
                number: 0,
                place: lines,
            },
            Err(refusal) => Verdict {
                number: refusal.fault.number(),
                place: refusal.line,
            },
        }
    }
}

pub fn judge_file(kind: Kind, bytes: &[u8]) -> Verdict {
    Verdict::from(count(kind, bytes))
}

// The file that a case spells.
fn spelled(heap: Global, text: &str) -> Result<Vec<u8>, AllocError> {
    let mut bytes = Vec::new(heap);
    for b in text.bytes() {
        let byte = match b {
            b'|' => 10,
            b'~' => 13,
            b'_' => 32,
            other => other,
        };
        bytes.push(byte)?;
    }
    Ok(bytes)
}

// How many cases there were, and how many came out as expected.
#[derive(Clone, Copy)]
struct Tally {
    cases: u32,
    right: u32,
}

// Says what is wrong with a case, if anything, and counts it.
fn judge(rt: &HostRuntime, line: &str, tally: Tally) -> io::Result<Tally> {
    let cases = tally.cases.saturating_add(1);
    let mut words = line.split(' ');
    let kind = words.next().unwrap_or("").parse::<Kind>();
    let number = words.next().unwrap_or("").parse::<u8>();
    let place = words.next().unwrap_or("").parse::<usize>();
    let (Ok(kind), Ok(number), Ok(place)) = (kind, number, place) else {
        println!(rt; "no case: {line}")?;
        return Ok(Tally { cases, ..tally });
    };
    let bytes = spelled(rt.alloc(), words.next().unwrap_or(""))?;
    let got = judge_file(kind, bytes.as_slice());
    if got == (Verdict { number, place }) {
        let right = tally.right.saturating_add(1);
        return Ok(Tally { cases, right });
    }
    let (number, place) = (got.number, got.place);
    println!(rt; "number {number}, line {place}: {line}")?;
    Ok(Tally { cases, ..tally })
}

fn main(rt: HostRuntime) -> io::Result<()> {
    let mut tally = Tally { cases: 0, right: 0 };
    for line in rt.lines(rt.alloc()) {
        let line = line?;
        if !line.as_str().is_empty() && !line.as_str().starts_with('#') {
            tally = judge(&rt, line.as_str(), tally)?;
        }
    }
    let (cases, right) = (tally.cases, tally.right);
    println!(rt; "{cases} files, {right} judged as expected")?;
    at_the_limit(&rt)
}
