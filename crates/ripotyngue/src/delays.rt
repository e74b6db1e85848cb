// The delays that a timing asks.
use delay::{Annotated, AnnotatedRow, Margin, Source, Table};
use graph::TimingGraph;
use measure::Measure;
use std::alloc::{AllocError, Global};
use tables::Tables;
use timing::TimeRefusal;

// A margin of so many thousandths answers what is below it.
const NO_MARGIN: u16 = 1000;

// The ticks of the arcs, and the thousandths of the margin over them.
#[derive(Drop)]
pub struct Delays {
    pub rows: Vec<AnnotatedRow>,
    permille: u16,
}

impl Delays {
    // No arc has a delay yet.
    pub fn none(heap: Global) -> Result<Delays, AllocError> {
        Ok(Delays {
            rows: vec![in heap; AnnotatedRow::BLANK; 1024]?,
            permille: NO_MARGIN,
        })
    }

    // Sets the margin, or takes it away.
    pub fn set_margin(&mut self, permille: Option<u16>) {
        self.permille = permille.unwrap_or(NO_MARGIN);
    }

    // The ticks under the margin.
    pub fn source(&self) -> Margin<Annotated<'_>> {
        let table = Table {
            rows: self.rows.as_slice(),
        };
        Margin::new(table, self.permille)
    }

    // The ticks of an arc, where a timing has some for it.
    pub fn ticks(&self, arc: u16) -> Option<i32> {
        self.source().delay(arc).ok()
    }

    // Times a graph by these delays.
    pub fn time<M: Measure>(
        &self,
        graph: &TimingGraph,
        tables: &mut Tables<M>,
    ) -> Result<usize, TimeRefusal> {
        tables.time(graph, &mut self.source())
    }
}
