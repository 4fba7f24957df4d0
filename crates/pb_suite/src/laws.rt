//! What holds of the commands' specifications.
ghost use Rattle.pb_suite.specs.Chain.{AmpleDesksSay, AnswersAreDecoded, FrontsAreTold, ModelsAreDecoded, OptimaAreAnswered, RefutationsAreAnswered};
ghost use Rattle.pb_suite.specs.OneDue.{NoTwoDue};

/// The law that no command specifies two outputs, two ways to stop, or one of each. So over a desk whose calls do not fail the answer is
/// the specified one, or `NoMemory`.
pub fn no_two_due()
    ensures { NoTwoDue }
{}

/// The law that, if files return what was written, a model of the CNF that `encode` made is decoded to a solution of the problem, and
/// exactly that solution's text is specified, whoever wrote the model text. It is printed, unless a call fails or memory runs out.
pub fn models_are_decoded()
    ensures { ModelsAreDecoded }
{}

/// The law that, if files return what was written, a text which refutes the CNF that `encode` made, with the derivation that was made, is
/// answered with the line `refuted`, unless a call fails or memory runs out; and the problem has no solution.
pub fn refutations_are_answered()
    ensures { RefutationsAreAnswered }
{}

/// The law that, if files return what was written, a solution is answered as an optimum with the CNF and the derivation that `encode`
/// made with the bound one below its value, and a text that refutes this CNF, unless a call fails or memory runs out.
pub fn optima_are_answered()
    ensures { OptimaAreAnswered }
{}

/// The law that a model text says of the first variables, read for these alone, what it says of them when it is read for all.
pub fn told_front()
    ensures { FrontsAreTold }
{}

/// The law that, if files return what was written, what a solver prints of the CNF that `encode` made, read without the problem, is
/// decoded to a solution, whoever wrote it, unless a call fails or memory runs out.
pub fn answers_are_decoded()
    ensures { AnswersAreDecoded }
{}

/// The law that on a fresh and steady desk with all that the words call for, a line that is printed unless a call fails is printed, or
/// memory runs out.
pub fn ample_desks_say()
    ensures { AmpleDesksSay }
{}
