// One call made on a graph.
ghost use Rattle.std.specs.Prelude.{◌≡◌};
ghost use Rattle.graph.specs.Refusals.{numbered};
ghost use Rattle.graph.specs.Block.{block_of};
ghost use Rattle.ledger.specs.Answers.{answer_of, call_answer, arc_answer, load_answer};
ghost use Rattle.ledger.specs.Calls.{Calls};

use crate::words::{Call, Reply};
use graph::{Refusal, TimingGraph};
use reader::FileRefusal;

impl From<Result<(), Refusal>> for Reply {
    ghost from_gives = { λ answer reply. answer_of reply ≡ call_answer (numbered answer) };

    fn from(answer: Result<(), Refusal>) -> Reply {
        answer.map_or_else(Reply::Refused, |()| Reply::Done)
    }
}

impl From<Result<u16, Refusal>> for Reply {
    ghost from_gives = { λ answer reply. answer_of reply ≡ arc_answer (numbered answer) };

    fn from(answer: Result<u16, Refusal>) -> Reply {
        answer.map_or_else(Reply::Refused, Reply::Taken)
    }
}

impl From<Result<(), FileRefusal>> for Reply {
    ghost from_gives = { λ answer reply. answer_of reply ≡ load_answer answer };

    fn from(answer: Result<(), FileRefusal>) -> Reply {
        answer.map_or_else(Reply::FileRefused, |()| Reply::Done)
    }
}

// Makes a call, and gives its answer as a value.
pub fn make(graph: &mut TimingGraph, call: Call<'_>) -> Reply
    ensures { Calls (block_of graph.old) call.entry (answer_of result) (block_of graph.new) }
{
    match call {
        Call::AddArc { from, to } => graph.add_arc(from, to).into(),
        Call::DropArc { arc } => graph.drop_arc(arc).into(),
        Call::SetStart { node, ticks } => graph.set_start(node, ticks).into(),
        Call::SetEnd { node, ticks } => graph.set_end(node, ticks).into(),
        Call::SetTrim { arc, ticks } => graph.set_trim(arc, ticks).into(),
        Call::Pair { set, from, to } => graph.pair(set, from, to).into(),
        Call::Clear { set } => graph.clear(set).into(),
        Call::Load { file, bytes } => graph.load(file, bytes).into(),
    }
}
