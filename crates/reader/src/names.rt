// The names line: which set of columns it names, and where each value of a record stands in a value line.
ghost use Rattle.std.specs.Prelude.{◌≡◌, ℕ, ◌<◌, map, slice_get, slice_index, option_and_then, unwrap_or};
ghost use Rattle.std.specs.Option.{option_map};
ghost use Rattle.reader.specs.Pieces.{pieces};
ghost use Rattle.reader.specs.Names.{is_order, place, chosen};
ghost use Rattle.reader.specs.Layouts.{layouts, entry};

use crate::fields::{Line, MOST};
use crate::layouts::{Layout, layouts};
use crate::records::Kind;
use std::array;

// Whether a line has the columns' names, each once, in any order.
fn is_order(columns: &[&str], names: Line) -> bool
    ensures { result ≡ is_order (map (λ c. c.now) columns.now) (pieces 44 names.entry.text.now) }
{
    names.width() == columns.len() && columns.iter().all(|column| names.has(column))
}

// The kind's set of columns that a line names, if it names one.
pub(crate) fn choose(kind: Kind, names: Line) -> Option<Layout>
    ensures { option_map entry result ≡ chosen (layouts kind) (pieces 44 names.entry.text.now) }
{
    layouts(kind)
        .iter()
        .find(|layout| is_order(layout.columns, names))
        .copied()
}

// The place of value i among the names, or 0 where there is none.
fn place_of(values: &[&str], names: Line, i: usize) -> usize
    ensures { result ≡ unwrap_or (option_and_then (λ v. place v.now (pieces 44 names.entry.text.now)) (slice_get values.now i)) 0 }
{
    let Some(value) = values.get(i) else {
        return 0;
    };
    names.place(value).unwrap_or(0)
}

// The places of the first values among the names.
pub(crate) fn find_places(values: &[&str], names: Line) -> [usize; MOST]
    ensures { (i : ℕ) → i < 3 → slice_index result i ≡ unwrap_or (option_and_then (λ v. place v.now (pieces 44 names.entry.text.now)) (slice_get values.now i)) 0 }
{
    array::from_fn(|i| place_of(values, names, i))
}
