ghost use Rattle.script_laws.specs.Meanings.{SelectsOnce, SaysOnce, IsMeant};
ghost use Rattle.script_laws.specs.Outcomes.{RunsAgree, OutcomesAgree, HasRun, HasOutcome};

/// Each text of a client has one meaning.
///
/// - `selection`: reading a request gives one selection or one refusal, whatever the metadata and the session.
/// - `once`: a text says one message.
/// - `some`: it can't be that a text says no message. What is no message of the protocol says that it is bad.
pub fn meanings()
    ensures selection { SelectsOnce }
    ensures once { SaysOnce }
    ensures some { IsMeant }
{}

/// Each script has one outcome. A run takes the messages of clients from a function, which must give the right one for
/// each text that the run takes; what it gives for other texts doesn't matter.
///
/// - `runs`, `agree`: two such functions lead to the same transcript, to the same texts on the way and to the same end,
///   over any lines from any standing, and over any script.
/// - `some_run`, `some`: it can't be that there is no such function.
pub fn outcomes()
    ensures runs { RunsAgree }
    ensures agree { OutcomesAgree }
    ensures some_run { HasRun }
    ensures some { HasOutcome }
{}
