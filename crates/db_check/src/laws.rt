//! What a verdict is held to. Each function does nothing: its contract is a law.
ghost use Rattle.db_check.specs.Laws.{VerdictsAreOne, GoodIsExact, FoundIsLeast};

/// Of a state and files there is at most one verdict.
pub fn verdicts_are_exact()
    ensures { VerdictsAreOne }
{}

/// A verdict is Good, with the number of files, exactly where they are those of the state.
pub fn good_is_exact()
    ensures { GoodIsExact }
{}

/// A name that is found is the least that shows a difference, and shows the one that is told.
pub fn found_is_least()
    ensures { FoundIsLeast }
{}
