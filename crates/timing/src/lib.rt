// The timer: the sheet of a graph under a delay source and a measure.
#![tactic(auto)]

mod arrive;
mod ask;
mod backward;
mod block;
mod bring;
mod cross;
mod crossing;
mod enter;
mod entries;
mod masks;
mod prepare;
mod refusals;
mod require;
mod rows;
mod search;
mod slack;
mod timer;
mod told;

pub use refusals::TimeRefusal;
pub use sheet::{Line, NodeEntry};
pub use timer::{sheets_are_counted, time};
