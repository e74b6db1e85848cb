// The tables of a timing, of any lengths.
ghost use Rattle.std.specs.Prelude.{◌≡◌, IfOk, length, replicate};
ghost use Rattle.std.specs.Result.{result_map_both};
ghost use Rattle.measure.specs.Rows.{zeros};
ghost use Rattle.graph.specs.Block.{block_of};
ghost use Rattle.paths.specs.Graphs.{by_node, row_block};
ghost use Rattle.sheet.specs.Blanks.{blank_line, blank_entry};
ghost use Rattle.sheet.specs.Traces.{refusal_number, trace_outcome};
ghost use Rattle.sheet.specs.Tables.{tables_of};
ghost use Rattle.timing.specs.Measured.{measured};
ghost use Rattle.timing.specs.Refusals.{refused_time};
ghost use Rattle.timing.specs.Times.{time_outcome};
ghost use Rattle.timing.specs.Terms.{terms_of};
ghost use Rattle.timing.specs.Agreement.{TimingAgrees};

use delay::Source;
use graph::TimingGraph;
use measure::Measure;
use sheet::{Line, NodeEntry, TablesMut, TablesRef, TraceRefusal, trace};
use std::alloc::{AllocError, Global};
use timing::{TimeRefusal, time};

fn rows<M: Measure>(heap: Global, count: usize, row: M) -> Result<Vec<M>, AllocError>
    ensures { IfOk result (λ v. v.items ≡ replicate count row) }
{
    let mut rows = Vec::with_capacity(heap, count)?;
    for _ in 0..count {
        rows.push(row)?;
    }
    Ok(rows)
}

// Times a graph into slices. What each slice ends as is what its table holds then.
fn time_lent<M: Measure, S: Source>(
    graph: &TimingGraph,
    source: &mut S,
    lines: &mut [Line],
    arrivals: &mut [M],
    required: &mut [M],
    nodes: &mut [NodeEntry],
    slacks: &mut [M],
) -> Result<usize, TimeRefusal>
    ensures answer { result_map_both (λ n. n) refused_time result ≡ (time_outcome (measured M.Measure) (tables_of M.Measure.row lines.old arrivals.old required.old nodes.old slacks.old) (row_block by_node M.Measure.row_of_time M.Measure.row_of_arc (block_of graph.now) (S.Source.means source.old))).answer }
    ensures agree { TimingAgrees (terms_of M.Measure (S.Source.means source.old)) (block_of graph.now) (tables_of M.Measure.row lines.old arrivals.old required.old nodes.old slacks.old) (result_map_both (λ n. n) refused_time result) (tables_of M.Measure.row lines.new arrivals.new required.new nodes.new slacks.new) }
    ensures tables { tables_of M.Measure.row lines.new arrivals.new required.new nodes.new slacks.new ≡ (time_outcome (measured M.Measure) (tables_of M.Measure.row lines.old arrivals.old required.old nodes.old slacks.old) (row_block by_node M.Measure.row_of_time M.Measure.row_of_arc (block_of graph.now) (S.Source.means source.old))).tables }
    ensures same { S.Source.means source.new ≡ S.Source.means source.old }
    ensures level { S.Source.depth source.new ≡ S.Source.depth source.old }
{
    let mut tables = TablesMut {
        lines,
        arrivals,
        required,
        nodes,
        slacks,
    };
    time(graph, source, &mut tables)
}

#[derive(Drop)]
pub struct Tables<M> {
    pub lines: Vec<Line>,
    pub arrivals: Vec<M>,
    pub required: Vec<M>,
    pub nodes: Vec<NodeEntry>,
    pub slacks: Vec<M>,
}

impl<M: Measure> Tables<M> {
    ghost use Rattle.tables.specs.Tables.{sheet_of, full_of, slack_at};

    // Line tables of so many lines and node tables of so many nodes, each full of one value.
    pub fn filled(
        heap: Global,
        lines: usize,
        nodes: usize,
        line: Line,
        entry: NodeEntry,
        row: M,
    ) -> Result<Tables<M>, AllocError>
        ensures { IfOk result (λ t. sheet_of M.Measure.row t ≡ full_of lines nodes line entry (M.Measure.row row)) }
    {
        Ok(Tables {
            lines: vec![in heap; line; lines]?,
            arrivals: rows(heap, lines, row)?,
            required: rows(heap, lines, row)?,
            nodes: vec![in heap; entry; nodes]?,
            slacks: rows(heap, nodes, row)?,
        })
    }

    // Blank tables with room for so many lines.
    pub fn blank(heap: Global, lines: usize) -> Result<Tables<M>, AllocError>
        ensures { IfOk result (λ t. sheet_of M.Measure.row t ≡ full_of lines 256 blank_line blank_entry (zeros M.width)) }
    {
        Tables::filled(heap, lines, 256, Line::BLANK, NodeEntry::BLANK, M::zero())
    }

    pub fn time<S: Source>(
        &mut self,
        graph: &TimingGraph,
        source: &mut S,
    ) -> Result<usize, TimeRefusal>
        ensures answer { result_map_both (λ n. n) refused_time result ≡ (time_outcome (measured M.Measure) (sheet_of M.Measure.row self.old) (row_block by_node M.Measure.row_of_time M.Measure.row_of_arc (block_of graph.now) (S.Source.means source.old))).answer }
        ensures agree { TimingAgrees (terms_of M.Measure (S.Source.means source.old)) (block_of graph.now) (sheet_of M.Measure.row self.old) (result_map_both (λ n. n) refused_time result) (sheet_of M.Measure.row self.new) }
        ensures tables { sheet_of M.Measure.row self.new ≡ (time_outcome (measured M.Measure) (sheet_of M.Measure.row self.old) (row_block by_node M.Measure.row_of_time M.Measure.row_of_arc (block_of graph.now) (S.Source.means source.old))).tables }
        ensures same { S.Source.means source.new ≡ S.Source.means source.old }
        ensures level { S.Source.depth source.new ≡ S.Source.depth source.old }
    {
        time_lent(
            graph,
            source,
            self.lines.as_mut_slice(),
            self.arrivals.as_mut_slice(),
            self.required.as_mut_slice(),
            self.nodes.as_mut_slice(),
            self.slacks.as_mut_slice(),
        )
    }

    // Writes the arcs of a node's path into a list, and answers how many they are.
    pub fn trace(&self, node: i32, list: &mut [u16]) -> Result<Option<usize>, TraceRefusal>
        ensures answer { result_map_both (λ n. n) refusal_number result ≡ (trace_outcome (sheet_of M.Measure.row self.now) node (length list.old)).answer }
        ensures list { list.new ≡ (trace_outcome (sheet_of M.Measure.row self.now) node (length list.old)).list }
    {
        let tables = TablesRef {
            lines: self.lines.as_slice(),
            arrivals: self.arrivals.as_slice(),
            required: self.required.as_slice(),
            nodes: self.nodes.as_slice(),
            slacks: self.slacks.as_slice(),
        };
        trace(node, &tables, list)
    }

    // The slack of a node that has one.
    pub fn slack(&self, node: u8) -> Option<M>
        ensures { result ≡ slack_at self.now node }
    {
        if self.nodes.get(node as usize)?.timed {
            self.slacks.get(node as usize).copied()
        } else {
            None
        }
    }
}
