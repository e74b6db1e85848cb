// Timing and tracing in ticks and stages.
ghost use Rattle.sheet.specs.Tables.{tables_of};
ghost use Rattle.held.specs.Held.{held_in};
ghost use Rattle.held.specs.Measures.{staged_ticks};
ghost use Rattle.held.specs.Timings.{delays_of, delays_with_margin, Times, Traces};

use delay::AnnotatedRow;
use held::{Answer, HeldGraph, time, time_with_margin, trace};
use measure::StagedTicks;
use sheet::{Line, NodeEntry};

#[unsafe(no_mangle)]
pub extern "C" fn ripotyngue_time_staged_ticks(
    held: &HeldGraph,
    rows: &[AnnotatedRow],
    lines: &mut [Line],
    arrivals: &mut [StagedTicks],
    required: &mut [StagedTicks],
    nodes: &mut [NodeEntry],
    slacks: &mut [StagedTicks],
) -> Answer
    ensures { Times staged_ticks (held_in held.now) (delays_of rows.entry.now) (tables_of staged_ticks.row lines.old arrivals.old required.old nodes.old slacks.old) result (tables_of staged_ticks.row lines.new arrivals.new required.new nodes.new slacks.new) }
{
    time(held, rows, lines, arrivals, required, nodes, slacks)
}

#[unsafe(no_mangle)]
pub extern "C" fn ripotyngue_time_margin_staged_ticks(
    held: &HeldGraph,
    rows: &[AnnotatedRow],
    permille: u32,
    lines: &mut [Line],
    arrivals: &mut [StagedTicks],
    required: &mut [StagedTicks],
    nodes: &mut [NodeEntry],
    slacks: &mut [StagedTicks],
) -> Answer
    ensures { Times staged_ticks (held_in held.now) (delays_with_margin permille rows.entry.now) (tables_of staged_ticks.row lines.old arrivals.old required.old nodes.old slacks.old) result (tables_of staged_ticks.row lines.new arrivals.new required.new nodes.new slacks.new) }
{
    time_with_margin(
        held, rows, permille, lines, arrivals, required, nodes, slacks,
    )
}

#[unsafe(no_mangle)]
pub extern "C" fn ripotyngue_trace_staged_ticks(
    node: i32,
    lines: &[Line],
    arrivals: &[StagedTicks],
    required: &[StagedTicks],
    nodes: &[NodeEntry],
    slacks: &[StagedTicks],
    list: &mut [u16],
) -> Answer
    ensures { Traces (tables_of staged_ticks.row lines.entry.now arrivals.entry.now required.entry.now nodes.entry.now slacks.entry.now) node list.old result list.new }
{
    trace(node, lines, arrivals, required, nodes, slacks, list)
}
