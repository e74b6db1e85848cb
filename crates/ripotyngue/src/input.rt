// Reads a file's bytes.
use reader::LIMIT;
use std::io::Read;
use std::{fs, io};

// A file's bytes, but no more than show that it is too long.
pub fn read_file(rt: &HostRuntime, path: &str) -> io::Result<Vec<u8>> {
    let file = fs::open(rt, path)?;
    let mut bytes = Vec::new(rt.alloc());
    file.take(LIMIT as u64 + 1).read_to_end(&mut bytes)?;
    Ok(bytes)
}
