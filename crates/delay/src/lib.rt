// Delay sources: where the tick count of an arc comes from.
#![tactic(auto)]

mod annotated;
mod fault;
mod kept;
mod load_formula;
mod loading;
mod margin;
mod memo;
mod product;
mod source;
mod table;

pub use annotated::{Annotated, AnnotatedRow};
pub use fault::{Cause, Fault};
pub use load_formula::{LoadFormula, LoadRow, under_load};
pub use loading::load_delays;
pub use margin::{Margin, ceil_thousandths, raise};
pub use memo::Memo;
pub use source::{LAST_ARC, Source, level_above};
pub use table::{Table, TableRow};
