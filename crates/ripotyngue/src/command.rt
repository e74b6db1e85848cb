// A line of the shell as a command.
use crate::choices::{MeasureName, WrongValue};
use crate::words::{decimal, first_word, trimmed, without_tail};
use ledger::Call;
use reader::Kind;
use std::str::from_utf8;
use thiserror::Error;

#[derive(Clone, Copy)]
pub enum Command<'a> {
    // A blank line or a comment.
    Pass,
    Make(Call<'a>),
    Load { kind: Kind, path: &'a str },
    // The factor in thousandths, or none.
    Margin(Option<i32>),
    Measure(MeasureName),
    Lines(i32),
    Trial { arc: i32, ticks: i32 },
    EndTrial,
    Time,
    Sheet,
    Slacks,
    Trace { node: i32 },
}

// Why a line is no command that can be served.
#[derive(Clone, Copy, Debug, Error)]
pub enum NoCommand {
    #[error("unknown command")]
    Unknown,
    #[error("a word is no decimal number")]
    NoNumber,
    #[error("this command takes {}", numbers_of(.0))]
    Count(usize),
    #[error("load takes a kind, which is arcs, delays, bounds or false, and a path")]
    LoadKind,
    #[error("load takes a path after the kind")]
    LoadPath,
    #[error("the path is no text")]
    PathNoText,
    #[error("margin takes a number of thousandths, or off")]
    Margin,
    #[error("measure {0}")]
    Measure(WrongValue),
    #[error("no trial is open")]
    NoTrial,
    #[error("while a trial is open only time, sheet, slacks, trace and endtrial are served")]
    InTrial,
}

fn numbers_of(count: &usize) -> &'static str {
    match *count {
        0 => "no number",
        1 => "one number",
        2 => "two numbers",
        _ => "three numbers",
    }
}

// The numbers after a command's name, as many as it takes. No command takes more than three.
fn numbers<const N: usize>(text: &[u8]) -> Result<[i32; N], NoCommand> {
    let mut numbers = [0; N];
    let mut rest = text;
    for count in 0..4usize {
        let (word, after) = first_word(rest);
        if word.is_empty() && count == N {
            return Ok(numbers);
        }
        if word.is_empty() {
            break;
        }
        let number = decimal(word).ok_or(NoCommand::NoNumber)?;
        if let Some(place) = numbers.get_mut(count) {
            *place = number;
        }
        rest = after;
    }
    Err(NoCommand::Count(N))
}

// A command that changes the graph.
fn call_named(name: &[u8], rest: &[u8]) -> Result<Call<'static>, NoCommand> {
    match name {
        b"arc" => numbers::<2>(rest).map(|[from, to]| Call::AddArc { from, to }),
        b"drop" => numbers::<1>(rest).map(|[arc]| Call::DropArc { arc }),
        b"start" => numbers::<2>(rest).map(|[node, ticks]| Call::SetStart { node, ticks }),
        b"end" => numbers::<2>(rest).map(|[node, ticks]| Call::SetEnd { node, ticks }),
        b"trim" => numbers::<2>(rest).map(|[arc, ticks]| Call::SetTrim { arc, ticks }),
        b"pair" => numbers::<3>(rest).map(|[set, from, to]| Call::Pair { set, from, to }),
        b"clear" => numbers::<1>(rest).map(|[set]| Call::Clear { set }),
        _ => Err(NoCommand::Unknown),
    }
}

// A command that takes only numbers.
fn numbered(name: &[u8], rest: &[u8]) -> Result<Command<'static>, NoCommand> {
    match name {
        b"trial" => numbers::<2>(rest).map(|[arc, ticks]| Command::Trial { arc, ticks }),
        b"lines" => numbers::<1>(rest).map(|[count]| Command::Lines(count)),
        b"trace" => numbers::<1>(rest).map(|[node]| Command::Trace { node }),
        b"endtrial" => numbers::<0>(rest).map(|[]| Command::EndTrial),
        b"time" => numbers::<0>(rest).map(|[]| Command::Time),
        b"sheet" => numbers::<0>(rest).map(|[]| Command::Sheet),
        b"slacks" => numbers::<0>(rest).map(|[]| Command::Slacks),
        _ => call_named(name, rest).map(Command::Make),
    }
}

// The path is all that follows the kind, so that it may have blanks within.
fn load_command(rest: &[u8]) -> Result<Command<'_>, NoCommand> {
    let (word, after) = first_word(rest);
    let kind = from_utf8(word)
        .ok()
        .and_then(|word| word.parse::<Kind>().ok())
        .ok_or(NoCommand::LoadKind)?;
    let path = without_tail(trimmed(after));
    if path.is_empty() {
        return Err(NoCommand::LoadPath);
    }
    match from_utf8(path) {
        Ok(path) => Ok(Command::Load { kind, path }),
        Err(_) => Err(NoCommand::PathNoText),
    }
}

fn margin_command(rest: &[u8]) -> Result<Command<'static>, NoCommand> {
    match without_tail(trimmed(rest)) {
        b"off" => Ok(Command::Margin(None)),
        word => {
            let number = decimal(word).ok_or(NoCommand::Margin)?;
            Ok(Command::Margin(Some(number)))
        }
    }
}

fn measure_command(rest: &[u8]) -> Result<Command<'static>, NoCommand> {
    let word = from_utf8(without_tail(trimmed(rest))).map_err(|_| NoCommand::Measure(
        WrongValue::Measure,
    ))?;
    let name = word.parse().map_err(NoCommand::Measure)?;
    Ok(Command::Measure(name))
}

pub fn parse(line: &[u8]) -> Result<Command<'_>, NoCommand> {
    let (name, rest) = first_word(line);
    match name {
        [] | [b'#', ..] => Ok(Command::Pass),
        b"load" => load_command(rest),
        b"margin" => margin_command(rest),
        b"measure" => measure_command(rest),
        _ => numbered(name, rest),
    }
}
