// Files at the limit of 60,000 bytes.
use crate::judge_file;
use reader::Kind;
use std::alloc::{AllocError, Global};
use std::io;

// A good arcs file with 14,995 value lines of four bytes, of which some have five.
fn long_file(heap: Global, wide: u32) -> Result<Vec<u8>, AllocError> {
    let mut bytes = Vec::new(heap);
    bytes.extend_from_slice(b"from,to\n")?;
    for i in 0..14_995u32 {
        let line: &[u8] = if i < wide { b"1,10\n" } else { b"1,2\n" };
        bytes.extend_from_slice(line)?;
    }
    bytes.extend_from_slice(b"end,14995\n")?;
    Ok(bytes)
}

fn show(rt: &HostRuntime, wide: u32) -> io::Result<()> {
    let bytes = long_file(rt.alloc(), wide)?;
    let length = bytes.len();
    let got = judge_file(Kind::Arcs, bytes.as_slice());
    let (number, place) = (got.number, got.place);
    println!(rt; "a good file of {length} bytes: number {number}, line or count {place}")
}

// 8 bytes of names, 59,980 of value lines, and 10 of the end line; each wider line adds one.
pub fn at_the_limit(rt: &HostRuntime) -> io::Result<()> {
    show(rt, 2)?;
    show(rt, 3)
}
