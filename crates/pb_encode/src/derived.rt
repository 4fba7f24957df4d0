//! What the files of a problem show to whoever checks them.
ghost use Rattle.pb_base.specs.declared.problem.Problem.{Problem};
ghost use Rattle.pb_base.specs.Problems.{IsWithinLimits};
ghost use Rattle.pb_base.specs.declared.options.Options.{Options};
ghost use Rattle.pb_dimacs.specs.CnfWholeLaws.{Tells};
ghost use Rattle.pb_encode.specs.Clauses.{problem_clauses, problem_vars};
ghost use Rattle.pb_encode.specs.Derived.{IsDerived};
ghost use Rattle.pb_encode.specs.Encodings.{problem_text};
ghost use Rattle.pb_encode.specs.Summaries.{IsEncodable};

/// The law that the steps of an encoded problem are allowed in turn over the loaded constraints and put out exactly its clauses. With the
/// lines around them they are at most 8 * (fresh + clauses) + 4 * (loaded constraints) + 8; lines can say them, and their text is within
/// the limits of a text.
pub fn steps_derive_the_clauses()
    ensures { (o : Options) (p : Problem) → IsWithinLimits p → IsEncodable o p → IsDerived o p }
{}

/// The law that the CNF text of an encoded problem is read as its number of variables and exactly its clauses; so neither a line nor the
/// text is too long.
pub fn cnf_tells_the_clauses()
    ensures { (o : Options) (p : Problem) → IsWithinLimits p → IsEncodable o p → Tells (problem_text o p) (problem_vars o p) (problem_clauses o p) }
{}
