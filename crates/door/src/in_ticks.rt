// Timing and tracing in ticks.
ghost use Rattle.sheet.specs.Tables.{tables_of};
ghost use Rattle.held.specs.Held.{held_in};
ghost use Rattle.held.specs.Measures.{ticks};
ghost use Rattle.held.specs.Timings.{delays_of, delays_with_margin, Times, Traces};

use delay::AnnotatedRow;
use held::{Answer, HeldGraph, time, time_with_margin, trace};
use measure::Ticks;
use sheet::{Line, NodeEntry};

#[unsafe(no_mangle)]
pub extern "C" fn ripotyngue_time_ticks(
    held: &HeldGraph,
    rows: &[AnnotatedRow],
    lines: &mut [Line],
    arrivals: &mut [Ticks],
    required: &mut [Ticks],
    nodes: &mut [NodeEntry],
    slacks: &mut [Ticks],
) -> Answer
    ensures { Times ticks (held_in held.now) (delays_of rows.entry.now) (tables_of ticks.row lines.old arrivals.old required.old nodes.old slacks.old) result (tables_of ticks.row lines.new arrivals.new required.new nodes.new slacks.new) }
{
    time(held, rows, lines, arrivals, required, nodes, slacks)
}

#[unsafe(no_mangle)]
pub extern "C" fn ripotyngue_time_margin_ticks(
    held: &HeldGraph,
    rows: &[AnnotatedRow],
    permille: u32,
    lines: &mut [Line],
    arrivals: &mut [Ticks],
    required: &mut [Ticks],
    nodes: &mut [NodeEntry],
    slacks: &mut [Ticks],
) -> Answer
    ensures { Times ticks (held_in held.now) (delays_with_margin permille rows.entry.now) (tables_of ticks.row lines.old arrivals.old required.old nodes.old slacks.old) result (tables_of ticks.row lines.new arrivals.new required.new nodes.new slacks.new) }
{
    time_with_margin(
        held, rows, permille, lines, arrivals, required, nodes, slacks,
    )
}

#[unsafe(no_mangle)]
pub extern "C" fn ripotyngue_trace_ticks(
    node: i32,
    lines: &[Line],
    arrivals: &[Ticks],
    required: &[Ticks],
    nodes: &[NodeEntry],
    slacks: &[Ticks],
    list: &mut [u16],
) -> Answer
    ensures { Traces (tables_of ticks.row lines.entry.now arrivals.entry.now required.entry.now nodes.entry.now slacks.entry.now) node list.old result list.new }
{
    trace(node, lines, arrivals, required, nodes, slacks, list)
}
