// The tables of a timing sheet, blank or written, and the path that they show for a node.
#![tactic(auto)]

mod blank;
mod laws;
mod line;
mod link;
mod node;
mod refusals;
mod tables;
mod tracing;
mod trail;

pub use blank::blank_rows;
pub use laws::sheets_are_traced;
pub use line::Line;
pub use node::NodeEntry;
pub use refusals::TraceRefusal;
pub use tables::{TablesMut, TablesRef};
pub use tracing::trace;
