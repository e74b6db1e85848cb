// The tables of a sheet, lent by the caller: to be read, or to be written.
ghost use Rattle.std.specs.Prelude.{◌≡◌};
ghost use Rattle.measure.specs.Rows.{zeros};
ghost use Rattle.sheet.specs.Tables.{well_sized, blanked};
ghost use Rattle.sheet.specs.Lent.{tables_seen, tables_in, SameLoans};

use crate::blank::blank_rows;
use crate::line::Line;
use crate::node::NodeEntry;
use measure::Measure;

// A line of each table is the same line of the sheet, and an entry of each node table the same node's.
#[derive(Clone, Copy)]
pub struct TablesRef<'a, M> {
    pub lines: &'a [Line],
    pub arrivals: &'a [M],
    pub required: &'a [M],
    pub nodes: &'a [NodeEntry],
    pub slacks: &'a [M],
}

#[derive(Drop)]
pub struct TablesMut<'a, M> {
    pub lines: &'a mut [Line],
    pub arrivals: &'a mut [M],
    pub required: &'a mut [M],
    pub nodes: &'a mut [NodeEntry],
    pub slacks: &'a mut [M],
}

impl<M: Measure> TablesRef<'_, M> {
    // Whether the line tables have one length, up to 4,096, and the node tables have 256 entries.
    pub fn are_well_sized(&self) -> bool
        ensures { result ≡ well_sized (tables_seen M.Measure.row self.now) }
    {
        self.lines.len() <= 4096
            && (self.arrivals.len() == self.lines.len()
                && (self.required.len() == self.lines.len()
                    && (self.nodes.len() == 256 && self.slacks.len() == 256)))
    }
}

impl<M: Measure> TablesMut<'_, M> {
    // The same tables, to be read.
    pub fn shared(&self) -> TablesRef<'_, M>
        ensures { tables_seen M.Measure.row result ≡ tables_in M.Measure.row self.now }
    {
        TablesRef {
            lines: self.lines,
            arrivals: self.arrivals,
            required: self.required,
            nodes: self.nodes,
            slacks: self.slacks,
        }
    }

    // Blanks every table, whatever their lengths.
    pub fn blank(&mut self)
        ensures blank { tables_in M.Measure.row self.new ≡ blanked (zeros M.width) (tables_in M.Measure.row self.old) }
        ensures loans { SameLoans self.old self.new }
    {
        self.lines.fill(Line::BLANK);
        blank_rows(self.arrivals);
        blank_rows(self.required);
        self.nodes.fill(NodeEntry::BLANK);
        blank_rows(self.slacks);
    }
}
