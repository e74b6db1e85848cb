// A timing graph: up to 1,024 arcs between 256 nodes, start and end ticks, and 16 false sets.
#![tactic(auto)]

mod calls;
mod index;
mod load;
mod loading;
mod order;
mod pairs;
mod parts;
mod ranges;
mod sets;
mod sorting;
mod store;
mod sweeps;
mod trial;

pub use parts::{ArcEnd, GraphFile, LiveArc, Refusal};
pub use store::{ArcIndex, TimingGraph};
pub use trial::Trial;
