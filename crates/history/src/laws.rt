// What holds of every history, and one history that meets all that the promise asks.
ghost use Rattle.history.specs.Laws.{StepsSettle};
ghost use Rattle.history.specs.Worked.{WorkedHistory};

// The steps, the measure and what the source means settle the answers, the ledger, the tables and the list.
pub fn steps_settle()
    ensures { StepsSettle }
{}

// The promise speaks of something: a history with a false set runs to an accepted timing that shows a slack and its path.
pub fn promise_is_met()
    ensures { WorkedHistory }
{}
