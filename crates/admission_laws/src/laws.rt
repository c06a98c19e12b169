ghost use Rattle.query_model.specs.AdmissionLaws.{AdmitsOnce, IsAdmittedOrRefused, IsAnswered, PlansAreThere, PlansFit, PollersHaveOnePlan};
ghost use Rattle.query_model.specs.AdmissionLaws.{AnsweredBySelection};

/// A request comes to one answer: its text has one first fault or says one document, and that is refused in one way or
/// admitted with one query and one initial cursor. Nobody can be told two answers to the same request, and no request is
/// without one: each flat selection is admitted or refused, with any metadata, session and values, and it can't be that a
/// request has no answer. What reading its text gives, a selection or a refusal, is all of the text that its answer
/// depends on.
pub fn requests()
    ensures once { AdmitsOnce }
    ensures either { IsAdmittedOrRefused }
    ensures answered { IsAnswered }
    ensures by_selection { AnsweredBySelection }
{}

/// Each admitted query has a plan: admission leaves no query without one. It fits the catalog: all of its tables and
/// columns are there, and a stream stands at the root alone. And the query's binding fits it, with any cursor: each slot
/// of a variable or of a session variable is there and holds what is wanted of it.
pub fn plans()
    ensures there { PlansAreThere }
    ensures fit { PlansFit }
{}

/// Admitted queries of one poller, of the same word, role and canonical text, have one plan, whatever their variables,
/// session variables and cursors: the order of arguments, the declared variables and the value in a cursor's
/// `initial_value` leave no trace in a plan.
pub fn pollers()
    ensures plan { PollersHaveOnePlan }
{}
