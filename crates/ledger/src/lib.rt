// Histories of a timing graph: its content and every answer are those of a ledger of the same acts.
#![tactic(auto)]

mod calls;
mod history;
mod laws;
mod nesting;
mod words;

pub use calls::make;
pub use history::{opening, session};
pub use laws::{acts_settle, ledgers_keep, sets_hold_pairs, trials_leave_nothing};
pub use nesting::{Nesting, nests};
pub use words::{Act, Call, Misuse, Reply};
