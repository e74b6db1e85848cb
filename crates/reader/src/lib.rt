// Reads the text files of a timing block: a line of column names, value lines, and an end line.
#![tactic(auto)]

mod faults;
mod fields;
mod laws;
mod layouts;
mod lines;
mod listing;
mod loading;
mod names;
mod numbers;
mod reading;
mod records;
mod values;

pub use faults::{FileFault, FileRefusal};
pub use laws::format_laws;
pub use lines::LIMIT;
pub use listing::{ListFault, count, list, list_into};
pub use loading::{Sink, load, run};
pub use records::{Kind, Record, Side, UnknownKind, UnknownSide};
