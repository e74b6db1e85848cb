// A step that only reads the graph: what an arc is, a timing, or a trace.
ghost use Rattle.std.specs.Prelude.{◌≡◌};
ghost use Rattle.graph.specs.Block.{block_of};
ghost use Rattle.sheet.specs.Lent.{tables_in, SameLoans};
ghost use Rattle.timing.specs.Terms.{terms_of};
ghost use Rattle.history.specs.Readings.{Reads};

use crate::steps::{Step, StepReply};
use delay::Source;
use graph::TimingGraph;
use ledger::{Act, Reply};
use measure::Measure;
use sheet::{TablesMut, trace};
use timing::time;

// Makes a step that reads, and gives its answer; nothing for a call and for a trial's opening or end, which are not made.
pub(crate) fn read<M: Measure, S: Source>(
    graph: &TimingGraph,
    step: Step<'_>,
    source: &mut S,
    tables: &mut TablesMut<'_, M>,
    list: &mut [u16],
) -> Option<StepReply>
    ensures reads { Reads (terms_of M.Measure (S.Source.means source.old)) (block_of graph.now) step.entry (tables_in M.Measure.row tables.old) list.old result (tables_in M.Measure.row tables.new) list.new }
    ensures loans { SameLoans tables.old tables.new }
    ensures same { S.Source.means source.new ≡ S.Source.means source.old }
    ensures level { S.Source.depth source.new ≡ S.Source.depth source.old }
{
    match step {
        Step::Act(Act::Read { arc }) => Some(StepReply::Act(Reply::Shown(graph.arc(arc)))),
        Step::Act(_) => None,
        Step::Time => Some(StepReply::Time(time(graph, source, tables))),
        Step::Trace { node } => Some(StepReply::Trace(trace(node, &tables.shared(), list))),
    }
}
