// Histories with timings: after every list of steps on a new graph, the timer and a person with the list of all open
// complete paths agree.
#![tactic(auto)]

mod laws;
mod reading;
mod running;
mod steps;

pub use laws::{promise_is_met, steps_settle};
pub use running::run;
pub use steps::{Step, StepReply};
