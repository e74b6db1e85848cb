// Measures: what a time, a delay or a slack is, by the row of whole numbers that it means.
#![tactic(auto)]

mod early;
mod limits;
mod measure;
mod staged;
mod ticks;

pub use early::Early;
pub use limits::{PLACE_LIMIT, TICK_LIMIT, is_tick_count};
pub use measure::Measure;
pub use staged::StagedTicks;
pub use ticks::Ticks;
