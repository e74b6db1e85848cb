// The steps of a history with timings and traces, and their answers, as values.
use ledger::{Act, Reply};
use sheet::TraceRefusal;
use timing::TimeRefusal;

// An act on the graph, a timing of it, or the trace of a node.
#[derive(Clone, Copy)]
pub enum Step<'a> {
    Act(Act<'a>),
    Time,
    Trace { node: i32 },
}

// What a step answers: a timing the number of lines, a trace the number of arcs.
#[derive(Clone, Copy, PartialEq, Debug)]
pub enum StepReply {
    Act(Reply),
    Time(Result<usize, TimeRefusal>),
    Trace(Result<Option<usize>, TraceRefusal>),
}
