// Runs a list of steps on a new graph and new tables.
use crate::delays::Delays;
use crate::failure::Failure;
use crate::limits::{LONGEST_PATH, MOST_LINES};
use crate::report::Report;
use history::{Step, StepReply, run};
use measure::Measure;
use sheet::TablesMut;
use tables::Tables;

// The steps time by the delays, under their margin.
pub fn run_steps<'a, M: Measure>(
    rt: &'a HostRuntime,
    steps: &[Step<'_>],
    delays: &'a Delays,
    replies: &mut [StepReply],
) -> Result<Report<'a, M>, Failure> {
    let mut tables = Tables::<M>::blank(rt.alloc(), MOST_LINES)?;
    let mut list = [0; LONGEST_PATH];
    let ran = run(
        steps,
        &mut delays.source(),
        &mut TablesMut {
            lines: tables.lines.as_mut_slice(),
            arrivals: tables.arrivals.as_mut_slice(),
            required: tables.required.as_mut_slice(),
            nodes: tables.nodes.as_mut_slice(),
            slacks: tables.slacks.as_mut_slice(),
        },
        &mut list,
        replies,
    );
    Ok(Report {
        rt,
        graph: ran.map_err(|_| Failure::Misfit)?,
        delays,
        tables,
    })
}
