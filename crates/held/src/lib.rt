// A timing graph in a caller's memory, by calls that answer every number and every state of that memory.
#![tactic(auto)]

mod answer;
mod early;
mod memory;
mod reading;
mod serving;
mod timed;

pub use answer::Answer;
pub use early::{EarlyStagedTicks, EarlyTicks};
pub use memory::HeldGraph;
pub use reading::{arc, end, start, taken};
pub use serving::{end_trial, make_graph, open_trial, serve};
pub use timed::{load_delays, time, time_with_margin, trace};
