// The table of the formats: which columns a file of each kind may have.
ghost use Rattle.std.specs.Prelude.{◌≡◌, map};
ghost use Rattle.reader.specs.Layouts.{layouts, entry};

use crate::records::Kind;

// A set of columns: the names that the names line has, each once, in any order; and, for each value of the record in
// the record's order, the column that it is read from.
#[derive(Clone, Copy)]
pub(crate) struct Layout {
    pub(crate) columns: &'static [&'static str],
    pub(crate) values: &'static [&'static str],
}

// The table: the sets of columns that a file of the kind may have.
pub(crate) fn layouts(kind: Kind) -> &'static [Layout]
    ensures { map entry result.now ≡ layouts kind }
{
    match kind {
        Kind::Arcs => &[Layout {
            columns: &["from", "to"],
            values: &["from", "to"],
        }],
        Kind::Delays => &[Layout {
            columns: &["arc", "ticks"],
            values: &["arc", "ticks"],
        }],
        Kind::Bounds => &[Layout {
            columns: &["node", "side", "ticks"],
            values: &["node", "side", "ticks"],
        }],
        Kind::FalseSets => &[Layout {
            columns: &["set", "from", "to"],
            values: &["set", "from", "to"],
        }],
    }
}
