//! How many bytes the files of a problem have at most.
ghost use Rattle.std.specs.Prelude.{◌≡◌, ℕ, length};
ghost use Rattle.pb_base.specs.declared.problem.Problem.{Problem};
ghost use Rattle.pb_base.specs.declared.options.Options.{Options};
ghost use Rattle.pb_base.specs.Problems.{IsWithinLimits, originals};
ghost use Rattle.pb_norm.specs.Products.{loaded_of};
ghost use Rattle.pb_encode.specs.Sizes.{constraints_in, AreTextsWithin, HasAtMost};
ghost use Rattle.pb_encode.specs.Summaries.{summary_of, IsEncodable};

/// The laws that bound the bytes of an encoded problem's CNF and of its derivation by the numbers of its summary, and by a number of
/// terms that no constraint passes.
pub fn texts_have_few_bytes()
    // Let no statement have more than n terms, nor the objective with a table, and each product fewer than n literals. Then the CNF has
    // at most 64 + 50 * clauses + 12 * n * (constraints treated as clauses) + 2^17 * adders bytes. The derivation has at most
    // 512 * n * (fresh + constraints + 1) + 2^20 * (fresh + clauses + 4 * constraints + 4).
    ensures longest { (n : ℕ) (o : Options) (p : Problem) → IsWithinLimits p → IsEncodable o p → HasAtMost n o p → AreTextsWithin n o p }
    // The same bounds hold if n is the number of the problem's variables and products, so that the summary alone determines them.
    ensures variables { (o : Options) (p : Problem) → IsWithinLimits p → IsEncodable o p → AreTextsWithin (originals p) o p }
    // The constraints of the summary, added up over all treatments, are as many as the loaded constraints.
    ensures constraints { (o : Options) (p : Problem) → constraints_in (summary_of o p).treatments ≡ length (loaded_of p) }
{}
