// The door for C: a timing graph in memory that C lends, and every call on it.
#![tactic(auto)]

mod delays;
mod graph_calls;
mod in_early_staged_ticks;
mod in_early_ticks;
mod in_staged_ticks;
mod in_ticks;
