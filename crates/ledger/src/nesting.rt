// How trials nest among the acts of a list.
ghost use Rattle.std.specs.Prelude.{◌≡◌, Bool, false, Option};
ghost use Rattle.ledger.specs.Histories.{nested_by};

// An act of a kind among which trials are opened and ended.
pub trait Nesting {
    ghost after: { Self → Bool → Option Bool };

    // Whether a trial is open after the act, where `trying` says whether one is before it; nothing where the act may not come.
    fn open_after(&self, trying: bool) -> Option<bool>
        ensures { result ≡ after self.now trying };
}

// Is each trial ended before the next call, and the last before the end?
pub fn nests<A: Nesting>(acts: &[A]) -> bool
    ensures { result ≡ nested_by A.after acts.now false }
{
    let mut trying = false;
    for act in acts {
        let Some(after) = act.open_after(trying) else {
            return false;
        };
        trying = after;
    }
    !trying
}
