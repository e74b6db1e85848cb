// The tables of a timing sheet on the heap, as programs hold them.
#![tactic(auto)]

mod tables;

pub use tables::Tables;
