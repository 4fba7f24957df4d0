//! Laws about equalities.
ghost use Rattle.pb_choice.specs.EqualityLaws.{EqualitiesAreBrief, EqualitiesAreSayable, EqualitiesDerive, EqualitiesEncode, EqualitiesForce, EqualitiesHaveFewSteps, JointEqualitiesForce, StatementsHaveHalves};

/// The law that the two halves of a statement are those of one equality.
pub fn statements_have_halves()
    ensures { StatementsHaveHalves }
{}

/// The law that an equality's clauses say what both halves say, under any options: both hold under each model, and each assignment under
/// which both hold extends to one. They are as many as defined.
pub fn equalities_encode()
    ensures { EqualitiesEncode }
{}

/// The laws of unit propagation over an equality's clauses. It reaches all that each half forces, or a conflict, but for halves that are
/// sent to the adder; and if the equality is encoded as one, all that both halves force together, and each output that its leaves decide.
pub fn equalities_force()
    // Propagation over the clauses reaches all that each half forces, or a conflict, but for halves that are sent to the adder.
    ensures halves { EqualitiesForce }
    // Propagation over the clauses of an equality that is encoded as one also reaches all that both halves force together, and each
    // output of its totalizer that the leaves decide, or a conflict.
    ensures both { JointEqualitiesForce }
{}

/// The laws of the steps of an equality, under any options: they derive the clauses, are few, and lines can say them, which are
/// short.
pub fn equalities_derive()
    // From each database in which both halves are live and the fresh variables are new, the steps are allowed in turn and put out exactly
    // the clauses.
    ensures derive { EqualitiesDerive }
    // The steps are at most 8 * (fresh + clauses) + 8.
    ensures few { EqualitiesHaveFewSteps }
    // Lines can say the steps if there are at most 2^56 clauses and no id passes 2^60 before the end.
    ensures sayable { EqualitiesAreSayable }
    // If besides the halves have at most 2^21 terms, the steps' lines are within the limits of a text.
    ensures brief { EqualitiesAreBrief }
{}
