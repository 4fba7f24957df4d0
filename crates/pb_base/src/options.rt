//! What may be chosen of an encoding.
ghost use Rattle.std.specs.Prelude.{◌≤◌};

/// How an at-most-one constraint is encoded.
#[derive(Clone, Copy, Debug)]
pub enum Amo {
    /// By its size: `Pairwise`, then `Ladder`, then `Product`.
    Auto,
    /// A clause for each two literals.
    Pairwise,
    /// A chain of fresh variables (after Gent and Nightingale 2004).
    Ladder,
    /// Rows and columns (after Chen 2010).
    Product,
}

/// How a cardinality constraint is encoded.
#[derive(Clone, Copy, Debug)]
pub enum Card {
    /// By its bound: `Counter`, then `Totalizer`.
    Auto,
    /// The sequential counter (Sinz 2005).
    Counter,
    /// The totalizer (Bailleux and Boufkhad 2003).
    Totalizer,
}

/// How a constraint with different coefficients is encoded.
#[derive(Clone, Copy, Debug)]
pub enum General {
    /// The interval diagram (Abío et al. 2012).
    Diagram,
    /// The generalized totalizer (Joshi, Martins and Manquinho 2015).
    Tree,
    /// The adder network (Eén and Sörensson 2006).
    Adder,
}

/// How the two halves of an equality are encoded.
#[derive(Clone, Copy, Debug)]
pub enum EqualMode {
    /// One by one.
    Split,
    /// As one, by a totalizer in both directions (Bailleux and Boufkhad 2003), where a number of the literals is asked for.
    Joint,
}

/// What may be chosen of an encoding.
#[derive(Clone, Copy, Debug)]
pub struct Options {
    /// The family of at-most-one constraints.
    pub amo: Amo,
    /// The family of cardinality constraints.
    pub card: Card,
    /// The family of constraints with different coefficients.
    pub general: General,
    /// How equalities are encoded.
    pub equal: EqualMode,
    /// The most fresh variables of one cardinality or general constraint, from 1 to `MAX_BUDGET`:
    /// one that needs more goes to the adder. An equality that needs more as one is encoded half by half.
    pub budget: u64,
    /// Whether a table of bounds on the objective stands behind all constraints. It has no more fresh variables than the
    /// budget.
    pub table: bool,
    pub ghost low: { 1 ≤ budget },
    pub ghost high: { budget ≤ 10000000 },
}

/// The budget where none is chosen.
pub const DEFAULT_BUDGET: u64 = 50_000;

/// The greatest budget.
pub const MAX_BUDGET: u64 = 10_000_000;

impl Default for Options {
    ghost use Rattle.std.specs.Prelude.{◌≡◌};
    ghost use Rattle.pb_base.specs.Defaults.{default_options};

    /// What stands where nothing is chosen.
    fn default() -> Self
        // At-most-one and cardinality constraints are encoded by their size, general ones by a diagram, equalities half by half; the
        // budget is 50,000 fresh variables, and there is no table of bounds.
        ensures { result ≡ default_options }
    {
        Options {
            amo: Amo::Auto,
            card: Card::Auto,
            general: General::Diagram,
            equal: EqualMode::Split,
            budget: DEFAULT_BUDGET,
            table: false,
        }
    }
}
