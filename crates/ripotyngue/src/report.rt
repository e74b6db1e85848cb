// What a timing found, in words and tables.
use crate::choices::Shown;
use crate::delays::Delays;
use crate::failure::Failure;
use crate::limits::LONGEST_PATH;
use crate::rows::{Columns, commas};
use graph::TimingGraph;
use measure::Measure;
use sheet::TraceRefusal;
use std::io;
use tables::Tables;

// A graph, the delays that it was timed by, and the tables of its timing.
#[derive(Drop)]
pub struct Report<'a, M> {
    pub rt: &'a HostRuntime,
    pub graph: TimingGraph,
    pub delays: &'a Delays,
    pub tables: Tables<M>,
}

impl<M: Measure> Report<'_, M> {
    // The slack of each node that has one.
    pub fn show_slacks(&self) -> io::Result<()> {
        if M::places() > 1 {
            println!(self.rt; "slack: node    ticks  stages")?;
        } else {
            println!(self.rt; "slack: node    ticks")?;
        }
        for node in 0..=255 {
            if let Some(slack) = self.tables.slack(node) {
                let columns = Columns(slack);
                println!(self.rt; "       {node:>4}{columns}")?;
            }
        }
        Ok(())
    }

    // The node of the least slack, the lowest of equals.
    fn worst_node(&self) -> Option<u8> {
        let (node, _) = (0..=255)
            .filter_map(|node| Some((node, self.tables.slack(node)?)))
            .reduce(|worst, next| if worst.1.not_after(next.1) {
                worst
            } else {
                next
            })?;
        Some(node)
    }

    // Tells the node of the least slack.
    pub fn tell_worst(&self) -> io::Result<()> {
        match self.worst_node() {
            Some(node) => println!(self.rt; "worst: node {node}"),
            None => println!(self.rt;
                "no node has a slack: no open path leads from a start to an end"
            ),
        }
    }

    // The node behind an arc, the row of the arc's delay and trim, and the arrival there.
    fn step(&self, arc: u16, arrival: M) -> Option<(u8, M, M)> {
        let live = self.graph.arc(arc)?;
        let row = M::arc(self.delays.ticks(arc)?.checked_add(live.trim)?)?;
        Some((live.to, row, arrival.sum(row)?))
    }

    // The nodes of a path of these arcs, from the first to the last; `node` where there is no arc.
    fn path_ends(&self, arcs: &[u16], node: u8) -> (u8, u8) {
        let graph = &self.graph;
        let ends = |first: &u16, last: &u16| Some((graph.arc(*first)?.from, graph.arc(*last)?.to));
        match arcs {
            [] => (node, node),
            [arc] => ends(arc, arc).unwrap_or((node, node)),
            [first, .., last] => ends(first, last).unwrap_or((node, node)),
        }
    }

    fn show_arcs(&self, arcs: &[u16], node: u8) -> io::Result<()> {
        let (from, to) = self.path_ends(arcs, node);
        let Some(mut arrival) = self.graph.start(from).and_then(|ticks| M::time(ticks)) else {
            return Ok(());
        };
        let start = commas(arrival);
        println!(self.rt; "  start at node {from}: arrival ({start})")?;
        for arc in arcs {
            if let Some((to, row, next)) = self.step(*arc, arrival) {
                let row = commas(row);
                let sum = commas(next);
                println!(self.rt; "  arc {arc} to node {to}: delay ({row}), arrival ({sum})")?;
                arrival = next;
            }
        }
        if let Some(end) = self.graph.end(to).and_then(|ticks| M::time(ticks)) {
            let end = commas(end);
            println!(self.rt; "  end at node {to}: required ({end})")?;
        }
        Ok(())
    }

    // The node and the arcs of its path, where it has a slack.
    fn path<'b>(
        &self,
        node: i32,
        list: &'b mut [u16],
    ) -> Result<Option<(u8, &'b [u16])>, TraceRefusal> {
        let Some(count) = self.tables.trace(node, list)? else {
            return Ok(None);
        };
        let node = u8::try_from(node).map_err(|_| TraceRefusal::OutOfRange)?;
        let arcs = list.get(..count).ok_or(TraceRefusal::ShortList)?;
        Ok(Some((node, arcs)))
    }

    // The path that is shown for a node.
    fn show_path(&self, node: i32) -> Result<(), Failure> {
        let mut list = [0; LONGEST_PATH];
        let traced = self.path(node, &mut list);
        let Some((index, arcs)) = traced.map_err(|refusal| Failure::TraceRefused { node, refusal })?
        else {
            println!(self.rt; "node {node} has no slack, so there is no path to show")?;
            return Ok(());
        };
        if let Some(slack) = self.tables.slack(index) {
            let slack = commas(slack);
            println!(self.rt; "path through node {node}, slack ({slack}):")?;
        }
        self.show_arcs(arcs, index)?;
        Ok(())
    }

    // The path of the node of the least slack.
    fn show_worst(&self) -> Result<(), Failure> {
        match self.worst_node() {
            Some(node) => self.show_path(i32::from(node)),
            None => Ok(()),
        }
    }

    fn show_all(&self) -> Result<(), Failure> {
        for node in 0..=255 {
            if self.tables.slack(node).is_some() {
                self.show_path(i32::from(node))?;
            }
        }
        Ok(())
    }

    pub fn show_paths(&self, shown: Shown) -> Result<(), Failure> {
        match shown {
            Shown::Worst => self.show_worst(),
            Shown::All => self.show_all(),
            Shown::Node(node) => self.show_path(node),
        }
    }
}
