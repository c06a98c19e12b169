ghost use Rattle.query_model.specs.ResultLaws.{PlannedIsResult, CohortsHaveOneResult};

/// What the plan of an admitted query gives with the query's binding, on a database that fits the catalog, is the query's
/// result, with any cursor for a stream and with null for every other query.
pub fn results()
    ensures planned { PlannedIsResult }
{}

/// Admitted queries of one cohort, of one poller and with equal bindings, have one result on each database. A binding has
/// the values of the variables that stand in the canonical text, those of the session variables that the role's filters
/// name, and the cursor, and a result depends on no others.
pub fn cohorts()
    ensures result { CohortsHaveOneResult }
{}
