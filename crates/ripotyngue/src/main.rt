// The program. What it does with files is in the library; here are the command line and the words.
#![tactic(auto)]

mod answers;
mod check;
mod choices;
mod command;
mod delays;
mod demo;
mod demo_measures;
mod demo_parts;
mod demo_sources;
mod failure;
mod files;
mod help;
mod input;
mod limits;
mod options;
mod report;
mod rows;
mod running;
mod shell;
mod time;
mod words;

use failure::Failure;
use std::env;
use std::process::ExitCode;

// Runs the command. A failure is still to be told; what else ends in the status of one has been said.
fn run(rt: &HostRuntime) -> Result<ExitCode, Failure> {
    let mut words = env::args(rt)?;
    let _ = words.next();
    let command = words.next().ok_or(Failure::NoCommand)?;
    match command.as_str() {
        "check" => return check::check(rt, words),
        "demo" => demo::demo(rt)?,
        "demo-parts" => return demo_parts::demo_parts(rt),
        "time" => time::time_command(rt, words)?,
        "shell" => shell::shell(rt)?,
        "help" => help::help(rt)?,
        _ => return Err(Failure::UnknownCommand(command)),
    }
    Ok(ExitCode::SUCCESS)
}

fn main(rt: HostRuntime) -> ExitCode {
    match run(&rt) {
        Ok(status) => status,
        Err(failure) => {
            let _ = eprintln!(rt; "ripotyngue: {failure}");
            ExitCode::FAILURE
        }
    }
}
