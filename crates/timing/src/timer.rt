// The timing of a graph.
ghost use Rattle.std.specs.Prelude.{◌≡◌, ◌≤◌, true, map, length};
ghost use Rattle.std.specs.Result.{result_map_both};
ghost use Rattle.measure.specs.Rows.{zeros};
ghost use Rattle.graph.specs.Block.{block_of};
ghost use Rattle.paths.specs.Rows.{Rows};
ghost use Rattle.paths.specs.Sheets.{node_slack};
ghost use Rattle.paths.specs.Graphs.{by_node, row_block};
ghost use Rattle.sheet.specs.Lent.{tables_in, SameLoans};
ghost use Rattle.sheet.specs.Tables.{Tables, well_sized, blanked};
ghost use Rattle.sheet.specs.Written.{line_of, required_of, entry_of, row_or, by_nodes};
ghost use Rattle.timing.specs.Measured.{measured};
ghost use Rattle.timing.specs.TimedBlock.{rows_of, sheet_of};
ghost use Rattle.timing.specs.Arrived.{Arrived};
ghost use Rattle.timing.specs.Refusals.{refused_time};
ghost use Rattle.timing.specs.Filled.{FilledFor};
ghost use Rattle.timing.specs.Times.{time_outcome, CountsSheets};
ghost use Rattle.timing.specs.Terms.{terms_of};
ghost use Rattle.timing.specs.Agreement.{TimingAgrees};

use crate::arrive::arrive_all;
use crate::backward::require_all;
use crate::block::TimedBlock;
use crate::entries::write_entries;
use crate::prepare::prepare;
use crate::refusals::TimeRefusal;
use crate::slack::TimedLines;
use delay::Source;
use graph::TimingGraph;
use measure::Measure;
use sheet::{Line, NodeEntry, TablesMut, blank_rows};

// The required times of all lines and the entries of all nodes, where every line has its arrival.
fn complete<M: Measure>(
    block: &TimedBlock,
    firsts: &[u16; 257],
    lines: &mut [Line],
    arrivals: &[M],
    required: &mut [M],
    nodes: &mut [NodeEntry],
    slacks: &mut [M],
)
    requires lines { length lines.old ≤ 4096 }
    requires even { length required.old ≡ length lines.old }
    requires arrived { Arrived M.Measure.row (measured M.Measure) (rows_of M.Measure block.now) 256 lines.old arrivals.now firsts.now (length lines.old) }
    requires nodes { length nodes.old ≡ 256 }
    requires slacks { length slacks.old ≡ 256 }
    ensures lines { lines.new ≡ map line_of (sheet_of M.Measure block.now) }
    ensures required { map M.Measure.row required.new ≡ map (required_of (zeros M.width)) (sheet_of M.Measure block.now) }
    ensures nodes { nodes.new ≡ by_nodes (λ v. entry_of (node_slack (measured M.Measure) v (sheet_of M.Measure block.now))) }
    ensures slacks { map M.Measure.row slacks.new ≡ by_nodes (λ v. row_or (zeros M.width) (node_slack (measured M.Measure) v (sheet_of M.Measure block.now))) }
{
    require_all(block, firsts, lines, required);
    let timed = TimedLines {
        lines,
        times: arrivals,
        required,
    };
    write_entries(firsts, &timed, nodes, slacks);
}

// Writes the sheet into tables of the right lengths, or says why there is none.
fn fill<M: Measure, S: Source>(
    graph: &TimingGraph,
    source: &mut S,
    tables: &mut TablesMut<'_, M>,
) -> Result<usize, TimeRefusal>
    requires { well_sized (tables_in M.Measure.row tables.old) ≡ true }
    ensures filled { FilledFor (measured M.Measure) (length tables.old.lines.now) (tables_in M.Measure.row tables.new) (row_block by_node M.Measure.row_of_time M.Measure.row_of_arc (block_of graph.now) (S.Source.means source.old)) result }
    ensures sizes { blanked (zeros M.width) (tables_in M.Measure.row tables.new) ≡ blanked (zeros M.width) (tables_in M.Measure.row tables.old) }
    ensures loans { SameLoans tables.old tables.new }
    ensures same { S.Source.means source.new ≡ S.Source.means source.old }
    ensures level { S.Source.depth source.new ≡ S.Source.depth source.old }
{
    let block = prepare(graph, source)?;
    let mut firsts = [0; 257];
    let lines = &mut *tables.lines;
    let arrivals = &mut *tables.arrivals;
    let required = &mut *tables.required;
    let Some(count) = arrive_all(&block, &mut firsts, lines, arrivals) else {
        return Err(TimeRefusal::TooFewLines);
    };
    complete(
        &block,
        &firsts,
        &mut lines[..count],
        &arrivals[..count],
        &mut required[..count],
        tables.nodes,
        tables.slacks,
    );
    lines[count..].fill(Line::BLANK);
    blank_rows(&mut arrivals[count..]);
    blank_rows(&mut required[count..]);
    Ok(count)
}

// Writes the sheet, or blanks the tables and says why.
fn write_sheet<M: Measure, S: Source>(
    graph: &TimingGraph,
    source: &mut S,
    tables: &mut TablesMut<'_, M>,
) -> Result<usize, TimeRefusal>
    ensures answer { result_map_both (λ n. n) refused_time result ≡ (time_outcome (measured M.Measure) (tables_in M.Measure.row tables.old) (row_block by_node M.Measure.row_of_time M.Measure.row_of_arc (block_of graph.now) (S.Source.means source.old))).answer }
    ensures tables { tables_in M.Measure.row tables.new ≡ (time_outcome (measured M.Measure) (tables_in M.Measure.row tables.old) (row_block by_node M.Measure.row_of_time M.Measure.row_of_arc (block_of graph.now) (S.Source.means source.old))).tables }
    ensures loans { SameLoans tables.old tables.new }
    ensures same { S.Source.means source.new ≡ S.Source.means source.old }
    ensures level { S.Source.depth source.new ≡ S.Source.depth source.old }
{
    if !tables.shared().are_well_sized() {
        tables.blank();
        return Err(TimeRefusal::WrongLength);
    }
    let timed = fill(graph, source, tables);
    if timed.is_err() {
        tables.blank();
    }
    timed
}

// Times a graph: writes the lines and the entries of the nodes, and answers how many lines there are. A refused timing
// leaves every table blank. What is answered and written is what a person with the list of all open complete paths says.
pub fn time<M: Measure, S: Source>(
    graph: &TimingGraph,
    source: &mut S,
    tables: &mut TablesMut<'_, M>,
) -> Result<usize, TimeRefusal>
    ensures answer { result_map_both (λ n. n) refused_time result ≡ (time_outcome (measured M.Measure) (tables_in M.Measure.row tables.old) (row_block by_node M.Measure.row_of_time M.Measure.row_of_arc (block_of graph.now) (S.Source.means source.old))).answer }
    ensures tables { tables_in M.Measure.row tables.new ≡ (time_outcome (measured M.Measure) (tables_in M.Measure.row tables.old) (row_block by_node M.Measure.row_of_time M.Measure.row_of_arc (block_of graph.now) (S.Source.means source.old))).tables }
    ensures agree { TimingAgrees (terms_of M.Measure (S.Source.means source.old)) (block_of graph.now) (tables_in M.Measure.row tables.old) (result_map_both (λ n. n) refused_time result) (tables_in M.Measure.row tables.new) }
    ensures loans { SameLoans tables.old tables.new }
    ensures same { S.Source.means source.new ≡ S.Source.means source.old }
    ensures level { S.Source.depth source.new ≡ S.Source.depth source.old }
{
    // the agreement rests on what every graph keeps
    graph.kept();
    write_sheet(graph, source, tables)
}

// A timing answers of a sheet what is said of it by itself: its number of lines, or 15 where the tables have fewer.
pub fn sheets_are_counted<R>()
    ensures { (m : Rows R) (t : Tables R) → CountsSheets m t }
{}
