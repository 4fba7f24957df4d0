//! What the clauses of a problem say.
ghost use Rattle.std.specs.Prelude.{◌≡◌, ◌+◌, true};
ghost use Rattle.pb_base.specs.declared.problem.Problem.{Problem};
ghost use Rattle.pb_base.specs.Problems.{IsWithinLimits, originals};
ghost use Rattle.pb_base.specs.declared.options.Options.{Options};
ghost use Rattle.pb_norm.specs.Products.{loaded_of};
ghost use Rattle.pb_encode.specs.Bounds.{bound_rows, TellBounds};
ghost use Rattle.pb_encode.specs.Clauses.{problem_clauses, problem_vars};
ghost use Rattle.pb_encode.specs.Groups.{all_members, groups_of};
ghost use Rattle.pb_encode.specs.Models.{ForceEach, HasSolutionsOf};
ghost use Rattle.pb_encode.specs.Apart.{AreApart};

use pb_base::EqualMode;

/// The law that values of the problem's variables are a solution iff they are the restriction of a model of its clauses, under any
/// options.
pub fn clauses_have_the_solutions()
    ensures { (o : Options) (p : Problem) → IsWithinLimits p → HasSolutionsOf p (problem_vars o p) (problem_clauses o p) }
{}

/// The law that the constraints of a problem's groups, one after another, are its loaded constraints.
pub fn groups_have_the_constraints()
    ensures { (p : Problem) → all_members (groups_of p) ≡ loaded_of p }
{}

/// The law that propagation over all clauses reaches what each loaded constraint forces that is not sent to the adder, or a conflict. Of
/// an equality that is encoded as one it also reaches what both halves force together, and each output of its totalizer that the leaves
/// decide.
pub fn clauses_force_what_constraints_do()
    ensures { (o : Options) (p : Problem) → IsWithinLimits p → ForceEach o (problem_clauses o p) (originals p + 1) (groups_of p) }
{}

/// The law that if equalities are encoded half by half, the clauses and counts before those of a table of bounds are those of all loaded
/// constraints, one after another.
pub fn equalities_stand_apart()
    ensures { (o : Options) (p : Problem) → o.equal ≡ EqualMode.Split → AreApart o p }
{}

/// The law that the values of a table's rows ascend, and are exactly the offset plus each sum of one or more costs. The models in which a
/// row's literal is false have as restrictions exactly the solutions whose objective is below the row's value. From the literal's
/// negation propagation reaches what that forces, or a conflict.
pub fn rows_bound_the_objective()
    ensures { (o : Options) (p : Problem) → IsWithinLimits p → o.table ≡ true → TellBounds p (problem_vars o p) (problem_clauses o p) (bound_rows o p) }
{}
