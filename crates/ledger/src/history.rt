// A history: a list of acts on a new graph.
ghost use Rattle.std.specs.Prelude.{◌≡◌, ◌+◌, ◌<◌, ◌≤◌, true, false, map, length, take, drop, MatchResult, slice_index_or};
ghost use Rattle.std.specs.Option.{option_map};
ghost use Rattle.graph.specs.Refusals.{refusal_number};
ghost use Rattle.graph.specs.Block.{block_of, blank};
ghost use Rattle.ledger.specs.Answers.{answer_of, open_answer};
ghost use Rattle.ledger.specs.Ledger.{closed, Runs, open_after, nested, Misused};

use crate::calls::make;
use crate::nesting::{Nesting, nests};
use crate::words::{Act, Misuse, Reply};
use graph::{Refusal, TimingGraph};

impl Nesting for Act<'_> {
    ghost after = { open_after };

    fn open_after(&self, trying: bool) -> Option<bool> {
        match self {
            Act::Make(_) => (!trying).then_some(false),
            Act::Open { .. } => (!trying).then_some(true),
            Act::Read { .. } => Some(trying),
            Act::End => trying.then_some(false),
        }
    }
}

// What the opening of a trial answers.
pub fn opening(refusal: Option<Refusal>) -> Reply
    ensures { answer_of result ≡ open_answer (option_map refusal_number refusal) }
{
    refusal.map_or(Reply::Done, Reply::Refused)
}

// Runs the trial that opens at `at`, and gives the place after its end.
fn under_trial(
    graph: &mut TimingGraph,
    arc: i32,
    ticks: i32,
    acts: &[Act<'_>],
    at: usize,
    replies: &mut [Reply],
) -> usize
    requires room { length replies.old ≡ length acts.now }
    requires within { at < length acts.now }
    requires opens { slice_index_or acts.now at Act.End ≡ Act.Open arc ticks }
    requires nests { nested (drop (at + 1) acts.now) true ≡ true }
    requires before { Runs (closed blank) (take at acts.now) (map answer_of (take at replies.old)) (closed (block_of graph.old)) }
    ensures further { at < result }
    ensures within { result ≤ length acts.now }
    ensures nests { nested (drop result acts.now) false ≡ true }
    ensures ran { Runs (closed blank) (take result acts.now) (map answer_of (take result replies.new)) (closed (block_of graph.new)) }
{
    let trial = graph.trial(arc, ticks);
    replies[at] = opening(trial.refusal());
    for i in at + 1..acts.len() {
        let Act::Read { arc } = acts[i] else {
            replies[i] = Reply::Done;
            return i + 1;
        };
        replies[i] = Reply::Shown(trial.graph().arc(arc));
    }
    unreachable()
}

// Runs the acts on a new graph, and writes what each answers.
pub fn session(acts: &[Act<'_>], replies: &mut [Reply]) -> Result<TimingGraph, Misuse>
    ensures { MatchResult result
        (λ g. Runs (closed blank) acts.now (map answer_of replies.new) (closed (block_of g)))
        (λ e. Misused e acts.now replies.old × (replies.new ≡ replies.old)) }
{
    if replies.len() != acts.len() {
        return Err(Misuse::Lengths);
    }
    if !nests(acts) {
        return Err(Misuse::Nesting);
    }
    let mut graph = TimingGraph::new();
    let mut i = 0;
    // a trial borrows the graph for as many acts as it has, so one turn can take many
    while i < acts.len() {
        match acts[i] {
            Act::Make(call) => {
                replies[i] = make(&mut graph, call);
                i += 1;
            }
            Act::Read { arc } => {
                replies[i] = Reply::Shown(graph.arc(arc));
                i += 1;
            }
            Act::Open { arc, ticks } => {
                i = under_trial(&mut graph, arc, ticks, acts, i, replies);
            }
            Act::End => unreachable(),
        }
    }
    Ok(graph)
}
