//! Laws about the definitions.
ghost use Rattle.pb_choice.specs.DeriveLaws.{ConstraintsAreBrief, ConstraintsAreSayable, ConstraintsDerive, ConstraintsHaveFewSteps};
ghost use Rattle.pb_choice.specs.ConstraintLaws.{ClausesEncode, ClausesForce};

/// The law that a constraint's clauses say what it says, under any options: it holds under each model of them, and each assignment under
/// which it holds extends to a model. Their literals are of its variables or fresh, and they are as many as defined.
pub fn clauses_encode()
    ensures { ClausesEncode }
{}

/// The law that propagation over the clauses of a constraint that is not sent to the adder reaches each literal that it forces, or a
/// conflict, from any literals without opposite ones.
pub fn clauses_force()
    ensures { ClausesForce }
{}

/// The laws of the steps of a constraint, under any options: they derive the clauses from it, are few, and lines can say
/// them, which are short.
pub fn constraints_derive()
    // From each database in which the constraint is live and its fresh variables are new, the steps are allowed in turn and put out
    // exactly the clauses; what was live stays live, and besides only constraints remain that were put out.
    ensures derive { ConstraintsDerive }
    // The steps are at most 8 * (fresh + clauses) + 4.
    ensures few { ConstraintsHaveFewSteps }
    // Lines can say the steps if there are at most 2^56 clauses and the next id is at most 2^60.
    ensures sayable { ConstraintsAreSayable }
    // If besides the constraint has at most 2^21 terms, the steps' lines are within the limits of a text.
    ensures brief { ConstraintsAreBrief }
{}
