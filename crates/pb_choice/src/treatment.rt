//! How constraints are treated.

/// A way to encode a residual constraint, whose units are taken out.
#[derive(Clone, Copy, Debug)]
pub enum Treatment {
    /// Nothing is left.
    Nothing,
    /// By the empty clause.
    Empty,
    /// By the clause that it is.
    Clause,
    /// At most one literal, by a clause for each two.
    Pairwise,
    /// At most one literal, by a ladder (after Gent and Nightingale 2004).
    Ladder,
    /// At most one literal, by rows and columns (after Chen 2010).
    Product,
    /// At most so many literals, by a sequential counter (Sinz 2005).
    Counter,
    /// At most so many literals, by a totalizer (Bailleux and Boufkhad 2003).
    Totalizer,
    /// A weighted sum, by an interval diagram (Abío et al. 2012).
    Diagram,
    /// A weighted sum, by a generalized totalizer (Joshi, Martins and Manquinho 2015).
    Tree,
    /// A weighted sum, by an adder network (Eén and Sörensson 2006).
    Adder,
}
