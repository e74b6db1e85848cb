// The ticks of the live arcs, asked of a source.
ghost use Rattle.std.specs.Prelude.{◌≡◌, ◌<◌, true, Some};
ghost use Rattle.graph.specs.Ranges.{is_ticks};
ghost use Rattle.graph.specs.declared.parts.LiveArc.{LiveArc as Live};
ghost use Rattle.graph.specs.Block.{block_of};
ghost use Rattle.paths.specs.Graphs.{arc_ticks};
ghost use Rattle.timing.specs.Asking.{or_refused, AskedOne, Asked};

use crate::refusals::TimeRefusal;
use delay::Source;
use graph::{LiveArc, TimingGraph};
use measure::is_tick_count;

// The ticks of an arc: what its source answers, plus the trim.
fn ask<S: Source>(source: &mut S, number: u16, trim: i32) -> Result<i32, TimeRefusal>
    requires { is_ticks trim ≡ true }
    ensures value { result ≡ or_refused (arc_ticks number trim (S.means source.old number)) }
    ensures same { S.means source.new ≡ S.means source.old }
    ensures level { S.depth source.new ≡ S.depth source.old }
{
    let ticks = source.delay(number)? + trim;
    if is_tick_count(ticks) {
        Ok(ticks)
    } else {
        Err(TimeRefusal::OutOfRange(number))
    }
}

// Writes the ticks of an arc, if it is live.
fn ask_arc<S: Source>(
    source: &mut S,
    number: u16,
    arc: Option<LiveArc>,
    ticks: &mut [i32; 1024],
) -> Result<(), TimeRefusal>
    requires number { number < 1024 }
    requires trim { (e : Live) → arc ≡ Some e → is_ticks e.trim ≡ true }
    ensures asked { AskedOne number arc (S.means source.old) ticks.old ticks.new result }
    ensures same { S.means source.new ≡ S.means source.old }
    ensures level { S.depth source.new ≡ S.depth source.old }
{
    let Some(arc) = arc else {
        return Ok(());
    };
    ticks[number as usize] = ask(source, number, arc.trim)?;
    Ok(())
}

// Writes the ticks of all live arcs, the lowest first.
pub(crate) fn ask_all<S: Source>(
    graph: &TimingGraph,
    source: &mut S,
    ticks: &mut [i32; 1024],
) -> Result<(), TimeRefusal>
    ensures asked { Asked (block_of graph.now).arcs (S.means source.old) ticks.new result }
    ensures same { S.means source.new ≡ S.means source.old }
    ensures level { S.depth source.new ≡ S.depth source.old }
{
    for number in 0..graph.taken() {
        ask_arc(source, number, graph.arc(number), ticks)?;
    }
    Ok(())
}
