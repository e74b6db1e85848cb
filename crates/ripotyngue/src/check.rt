// The command `check`: whether files are good ones of a kind.
use crate::failure::Failure;
use crate::input::read_file;
use reader::{Kind, count};
use std::env::Args;
use std::io;
use std::process::ExitCode;

// Says what the reader makes of a file's bytes, and answers whether it took them.
pub fn judge(rt: &HostRuntime, name: &str, kind: Kind, bytes: &[u8]) -> io::Result<bool> {
    match count(kind, bytes) {
        Ok(lines) => {
            let word = kind.name();
            println!(rt; "{name}: {word}, {lines} value lines, accepted")?;
            Ok(true)
        }
        Err(refusal) => {
            println!(rt; "{name}: refused, {refusal}")?;
            Ok(false)
        }
    }
}

// The same of the file at a path. One that cannot be read is told and is not taken, so that the next has its turn.
fn judge_file(rt: &HostRuntime, path: &str, kind: Kind) -> io::Result<bool> {
    match read_file(rt, path) {
        Ok(bytes) => judge(rt, path, kind, bytes.as_slice()),
        Err(error) => {
            eprintln!(rt; "ripotyngue: {path}: cannot be read: {error}")?;
            Ok(false)
        }
    }
}

pub fn status(well: bool) -> ExitCode {
    if well {
        ExitCode::SUCCESS
    } else {
        ExitCode::FAILURE
    }
}

// One line for each file; it went well where all were taken.
pub fn check(rt: &HostRuntime, mut words: Args) -> Result<ExitCode, Failure> {
    let word = words.next().ok_or(Failure::NoKind)?;
    let Ok(kind) = word.as_str().parse::<Kind>() else {
        return Err(Failure::UnknownKind(word));
    };
    let first = words.next().ok_or(Failure::NoFile)?;
    let mut good = judge_file(rt, first.as_str(), kind)?;
    for path in words {
        good &= judge_file(rt, path.as_str(), kind)?;
    }
    Ok(status(good))
}
