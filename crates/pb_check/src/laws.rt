//! What an accepted derivation shows, and that checking has one answer.
ghost use Rattle.pb_check.specs.WalkLaws.{AcceptedCnfExtends, RunsAreAccepted, WalkHasOneAnswer, WrittenRunsAreAccepted};

/// The law that if a derivation is accepted, whatever the texts, the CNF says clauses, and each solution of the problem is the
/// restriction of a model of them.
pub fn accepted_cnf_extends()
    ensures { AcceptedCnfExtends }
{}

/// The law that for any two texts there is an answer, and only one.
pub fn walk_has_one_answer()
    ensures { WalkHasOneAnswer }
{}

/// The law that lines which say the steps of a run that puts out the clauses of a CNF are accepted, between the lines before and after
/// them, within the limits of a text.
pub fn runs_are_accepted()
    ensures { RunsAreAccepted }
{}

/// The law that the text which is written of the steps of such a run, a line each, is accepted.
pub fn written_runs_are_accepted()
    ensures { WrittenRunsAreAccepted }
{}
