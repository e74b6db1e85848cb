// A graph and a source make the block that the passes read.
ghost use Rattle.std.specs.Prelude.{◌≡◌};
ghost use Rattle.timing.specs.Prepared.{Prepared};

use crate::ask::ask_all;
use crate::block::TimedBlock;
use crate::masks::{apart_from, sets_at};
use crate::refusals::TimeRefusal;
use delay::Source;
use graph::{ArcEnd, TimingGraph};

pub(crate) fn prepare<'a, S: Source>(
    graph: &'a TimingGraph,
    source: &mut S,
) -> Result<TimedBlock<'a>, TimeRefusal>
    ensures prepared { Prepared graph.now (S.means source.old) result }
    ensures same { S.means source.new ≡ S.means source.old }
    ensures level { S.depth source.new ≡ S.depth source.old }
{
    let mut ticks = [0; 1024];
    ask_all(graph, source, &mut ticks)?;
    let outs = sets_at(ArcEnd::Tail, graph);
    let ins = sets_at(ArcEnd::Head, graph);
    let begins = apart_from(&outs, &ins);
    let ends = apart_from(&ins, &outs);
    Ok(TimedBlock {
        graph,
        ticks,
        begins,
        ends,
    })
}
