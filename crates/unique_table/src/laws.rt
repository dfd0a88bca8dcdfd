ghost use Rattle.unique_table.specs.Stakes.{HalvesJoin};
ghost use Rattle.unique_table.specs.Sessions.{AloneStaysAlone};
ghost use Rattle.unique_table.specs.Closing.{SessionsLackWhatIsEmpty};
ghost use Rattle.unique_table.specs.Steps.{WholesAreAlone, EqualFunctionsHaveEqualIds, EqualIdsHaveEqualFunctions, Looks, Puts, Publishes, Collects, Recalls, Remembers};

/// Law: ids that sessions of a store know are equal exactly if they denote the same function,
/// whichever threads made their nodes.
pub fn equal_functions_have_equal_ids()
    ensures ids { EqualFunctionsHaveEqualIds }
    ensures functions { EqualIdsHaveEqualFunctions }
{}

/// Law: each atomic step keeps the store's invariant and adds what it read or wrote to the
/// session's view. `look`, `collect` and `recall` write nothing; `put`, `publish` and `remember`
/// write one word. None changes an id that was published.
pub fn steps_are_of_their_kinds()
    ensures look { Looks }
    ensures put { Puts }
    ensures publish { Publishes }
    ensures collect { Collects }
    ensures recall { Recalls }
    ensures remember { Remembers }
{}

/// Law: a session with the whole stake is the store's only one. The first session has the whole
/// stake, a split halves it, and a join adds two.
pub fn whole_stakes_are_alone()
    ensures only { WholesAreAlone }
    ensures stays { AloneStaysAlone }
    ensures joined { HalvesJoin }
{}

/// Law: if the root of output j is missing in a closed store, the session that closed it knew none
/// of output j; if it was alone, it knew the roots of all outputs below j.
pub fn sessions_lack_what_is_empty()
    ensures { SessionsLackWhatIsEmpty }
{}
