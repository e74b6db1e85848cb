// A history: a list of steps on a new graph.
ghost use Rattle.std.specs.Prelude.{◌≡◌, ◌<◌, ◌≤◌, true, false, map, length, take, drop, MatchResult, slice_index_or};
ghost use Rattle.graph.specs.Block.{block_of};
ghost use Rattle.ledger.specs.declared.words.Act.TheVariants.{Open};
ghost use Rattle.sheet.specs.Lent.{tables_in, SameLoans};
ghost use Rattle.history.specs.Answers.{answer_of};
ghost use Rattle.timing.specs.Terms.{terms_of};
ghost use Rattle.history.specs.Steps.{at_rest, new, Runs, open_after, nested, Misused};
ghost use Rattle.history.specs.Readings.{is_reading};
ghost use Rattle.history.specs.Promise.{HistoriesAgree};

use crate::reading::read;
use crate::steps::{Step, StepReply};
use delay::Source;
use graph::TimingGraph;
use ledger::{Act, Misuse, Nesting, Reply, make, nests, opening};
use measure::Measure;
use sheet::TablesMut;

// A timing and a trace may come under a trial, and leave it as it is.
impl Nesting for Step<'_> {
    ghost after = { open_after };

    fn open_after(&self, trying: bool) -> Option<bool> {
        match self {
            Step::Act(act) => act.open_after(trying),
            Step::Time | Step::Trace { .. } => Some(trying),
        }
    }
}

// Runs the trial that the first step opens, and gives how many steps it takes with its end.
fn under_trial<M: Measure, S: Source>(
    graph: &mut TimingGraph,
    arc: i32,
    ticks: i32,
    steps: &[Step<'_>],
    source: &mut S,
    tables: &mut TablesMut<'_, M>,
    list: &mut [u16],
    replies: &mut [StepReply],
) -> usize
    requires room { length replies.old ≡ length steps.now }
    requires opens { slice_index_or steps.now 0 Step.Time ≡ Step.Act (Open arc ticks) }
    requires some { 0 < length steps.now }
    requires nests { nested (drop 1 steps.now) true ≡ true }
    ensures further { 0 < result }
    ensures within { result ≤ length steps.now }
    ensures nests { nested (drop result steps.now) false ≡ true }
    ensures ran { Runs (terms_of M.Measure (S.Source.means source.old))
        (at_rest (block_of graph.old) (tables_in M.Measure.row tables.old) list.old)
        (take result steps.now) (map answer_of (take result replies.new))
        (at_rest (block_of graph.new) (tables_in M.Measure.row tables.new) list.new) }
    ensures loans { SameLoans tables.old tables.new }
    ensures same { S.Source.means source.new ≡ S.Source.means source.old }
    ensures level { S.Source.depth source.new ≡ S.Source.depth source.old }
{
    let trial = graph.trial(arc, ticks);
    replies[0] = StepReply::Act(opening(trial.refusal()));
    for i in 1..steps.len() {
        let Some(reply) = read(trial.graph(), steps[i], source, tables, list) else {
            replies[i] = StepReply::Act(Reply::Done);
            return i + 1;
        };
        replies[i] = reply;
    }
    unreachable()
}

// Makes the first step, which reads, and gives that it is one step.
fn read_first<M: Measure, S: Source>(
    graph: &TimingGraph,
    steps: &[Step<'_>],
    source: &mut S,
    tables: &mut TablesMut<'_, M>,
    list: &mut [u16],
    replies: &mut [StepReply],
) -> usize
    requires room { length replies.old ≡ length steps.now }
    requires some { 0 < length steps.now }
    requires reads { is_reading (slice_index_or steps.now 0 Step.Time) ≡ true }
    requires nests { nested steps.now false ≡ true }
    ensures further { 0 < result }
    ensures within { result ≤ length steps.now }
    ensures nests { nested (drop result steps.now) false ≡ true }
    ensures ran { Runs (terms_of M.Measure (S.Source.means source.old))
        (at_rest (block_of graph.now) (tables_in M.Measure.row tables.old) list.old)
        (take result steps.now) (map answer_of (take result replies.new))
        (at_rest (block_of graph.now) (tables_in M.Measure.row tables.new) list.new) }
    ensures loans { SameLoans tables.old tables.new }
    ensures same { S.Source.means source.new ≡ S.Source.means source.old }
    ensures level { S.Source.depth source.new ≡ S.Source.depth source.old }
{
    replies[0] = read(graph, steps[0], source, tables, list).unwrap();
    1
}

// Makes the first step, where it opens a trial with all up to its end, and gives how many steps that are.
fn advance<M: Measure, S: Source>(
    graph: &mut TimingGraph,
    steps: &[Step<'_>],
    source: &mut S,
    tables: &mut TablesMut<'_, M>,
    list: &mut [u16],
    replies: &mut [StepReply],
) -> usize
    requires room { length replies.old ≡ length steps.now }
    requires some { 0 < length steps.now }
    requires nests { nested steps.now false ≡ true }
    ensures further { 0 < result }
    ensures within { result ≤ length steps.now }
    ensures nests { nested (drop result steps.now) false ≡ true }
    ensures ran { Runs (terms_of M.Measure (S.Source.means source.old))
        (at_rest (block_of graph.old) (tables_in M.Measure.row tables.old) list.old)
        (take result steps.now) (map answer_of (take result replies.new))
        (at_rest (block_of graph.new) (tables_in M.Measure.row tables.new) list.new) }
    ensures loans { SameLoans tables.old tables.new }
    ensures same { S.Source.means source.new ≡ S.Source.means source.old }
    ensures level { S.Source.depth source.new ≡ S.Source.depth source.old }
{
    match steps[0] {
        Step::Act(Act::Make(call)) => {
            replies[0] = StepReply::Act(make(graph, call));
            1
        }
        Step::Act(Act::Open { arc, ticks }) => {
            under_trial(graph, arc, ticks, steps, source, tables, list, replies)
        }
        _ => read_first(graph, steps, source, tables, list, replies),
    }
}

// Runs the steps on a new graph, and writes what each answers. The tables and the list hold then what the last timing
// and the last trace wrote.
pub fn run<M: Measure, S: Source>(
    steps: &[Step<'_>],
    source: &mut S,
    tables: &mut TablesMut<'_, M>,
    list: &mut [u16],
    replies: &mut [StepReply],
) -> Result<TimingGraph, Misuse>
    ensures ran { MatchResult result
        (λ g. Runs (terms_of M.Measure (S.Source.means source.old))
        (new (tables_in M.Measure.row tables.old) list.old)
        steps.now (map answer_of replies.new)
        (at_rest (block_of g) (tables_in M.Measure.row tables.new) list.new))
        (λ e. Misused e steps.now replies.old × (replies.new ≡ replies.old) × (list.new ≡ list.old)
        × (tables_in M.Measure.row tables.new ≡ tables_in M.Measure.row tables.old)) }
    ensures loans { SameLoans tables.old tables.new }
    ensures same { S.Source.means source.new ≡ S.Source.means source.old }
    ensures level { S.Source.depth source.new ≡ S.Source.depth source.old }
    ensures agree { HistoriesAgree M.Measure.width M.Measure.not_later M.Measure.row_of_time M.Measure.row_of_arc }
{
    if replies.len() != steps.len() {
        return Err(Misuse::Lengths);
    }
    if !nests(steps) {
        return Err(Misuse::Nesting);
    }
    let mut graph = TimingGraph::new();
    let mut i = 0;
    // a trial borrows the graph for as many steps as it has, so one turn can take many
    while i < steps.len() {
        i += advance(
            &mut graph,
            &steps[i..],
            source,
            tables,
            list,
            &mut replies[i..],
        );
    }
    Ok(graph)
}
