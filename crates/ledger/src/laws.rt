// What holds of every history.
ghost use Rattle.ledger.specs.Laws.{Settled, LedgersKeep, SetsHoldPairs, Undone};

use reader::format_laws;

// The acts settle the answers and the ledger.
pub fn acts_settle()
    ensures { Settled }
{}

// Every ledger keeps what every graph keeps: each arc goes from a lower node to a higher one.
pub fn ledgers_keep()
    ensures { LedgersKeep }
{}

// A set holds an arc exactly when a pair accepted since the set was last empty had it on a live path.
pub fn sets_hold_pairs()
    ensures { SetsHoldPairs }
{
    // the call brings the format's laws into the proof
    format_laws();
}

// A trial opened and ended leaves all as if it had never been opened.
pub fn trials_leave_nothing()
    ensures { Undone }
{}
