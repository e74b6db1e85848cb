// The worked cases of the timing rules, and every refusal of a timing and a trace, through the calls.
#![tactic(auto)]

mod block;
mod cases;
mod refused;
mod show;
mod traced;
mod written;

use std::io;

fn main(rt: HostRuntime) -> io::Result<()> {
    cases::small(&rt)?;
    cases::selected(&rt)?;
    cases::measured(&rt)?;
    cases::tried(&rt)?;
    refused::by_source(&rt)?;
    refused::by_length(&rt)?;
    traced::refused(&rt)
}
