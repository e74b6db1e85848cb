// The timing of a held graph, and the path that its tables show, by the slices that a caller lends.
ghost use Rattle.sheet.specs.Tables.{tables_of};
ghost use Rattle.held.specs.Held.{held_in};
ghost use Rattle.held.specs.Timings.{LoadsDelays, delays_of, delays_with_margin, Times, Traces};

use crate::answer::Answer;
use crate::memory::HeldGraph;
use crate::serving::NOT_MADE;
use delay::{Annotated, AnnotatedRow, Margin, Source};
use measure::Measure;
use sheet::{Line, NodeEntry, TablesMut, TablesRef};

// Sets the rows that the lines of a delay file name, or leaves them as they were.
pub fn load_delays(bytes: &[u8], rows: &mut [AnnotatedRow]) -> Answer
    ensures { LoadsDelays bytes.entry.now rows.old result rows.new }
{
    match delay::load_delays(bytes, rows) {
        Ok(()) => Answer::ACCEPTED,
        Err(refusal) => refusal.into(),
    }
}

// Times the graph under a source into the tables. A refused timing leaves every table blank.
fn time_under<M: Measure, S: Source>(
    held: &HeldGraph,
    source: &mut S,
    lines: &mut [Line],
    arrivals: &mut [M],
    required: &mut [M],
    nodes: &mut [NodeEntry],
    slacks: &mut [M],
) -> Answer
    ensures { Times M.Measure (held_in held.now) (S.Source.means source.old) (tables_of M.Measure.row lines.old arrivals.old required.old nodes.old slacks.old) result (tables_of M.Measure.row lines.new arrivals.new required.new nodes.new slacks.new) }
{
    let mut tables = TablesMut {
        lines,
        arrivals,
        required,
        nodes,
        slacks,
    };
    if !held.is_made() {
        tables.blank();
        return Answer::refused(NOT_MADE);
    }
    timing::time(&held.graph, source, &mut tables).into()
}

// Times the graph, with the delays of the rows.
pub fn time<M: Measure>(
    held: &HeldGraph,
    rows: &[AnnotatedRow],
    lines: &mut [Line],
    arrivals: &mut [M],
    required: &mut [M],
    nodes: &mut [NodeEntry],
    slacks: &mut [M],
) -> Answer
    ensures { Times M.Measure (held_in held.now) (delays_of rows.entry.now) (tables_of M.Measure.row lines.old arrivals.old required.old nodes.old slacks.old) result (tables_of M.Measure.row lines.new arrivals.new required.new nodes.new slacks.new) }
{
    let mut source = Annotated { rows };
    time_under(held, &mut source, lines, arrivals, required, nodes, slacks)
}

// The same under a margin, whose factor in thousandths counts as 1,000 at least and 2,000 at most.
pub fn time_with_margin<M: Measure>(
    held: &HeldGraph,
    rows: &[AnnotatedRow],
    permille: u32,
    lines: &mut [Line],
    arrivals: &mut [M],
    required: &mut [M],
    nodes: &mut [NodeEntry],
    slacks: &mut [M],
) -> Answer
    ensures { Times M.Measure (held_in held.now) (delays_with_margin permille rows.entry.now) (tables_of M.Measure.row lines.old arrivals.old required.old nodes.old slacks.old) result (tables_of M.Measure.row lines.new arrivals.new required.new nodes.new slacks.new) }
{
    let factor = permille.clamp(1000, 2000) as u16;
    let mut source = Margin::new(Annotated { rows }, factor);
    time_under(held, &mut source, lines, arrivals, required, nodes, slacks)
}

// Writes the arcs of the path that the tables show for a node, and answers how many they are.
pub fn trace<M: Measure>(
    node: i32,
    lines: &[Line],
    arrivals: &[M],
    required: &[M],
    nodes: &[NodeEntry],
    slacks: &[M],
    list: &mut [u16],
) -> Answer
    ensures { Traces (tables_of M.Measure.row lines.entry.now arrivals.entry.now required.entry.now nodes.entry.now slacks.entry.now) node list.old result list.new }
{
    let tables = TablesRef {
        lines,
        arrivals,
        required,
        nodes,
        slacks,
    };
    sheet::trace(node, &tables, list).into()
}
