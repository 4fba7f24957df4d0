//! Sums that a plan keeps, with what was built of them.
ghost use Rattle.std.specs.Prelude.{◌≡◌, ◌≤◌, ◌<◌, ◌^◌, length};
ghost use Rattle.pb_norm.specs.Constraints.{weight};
ghost use Rattle.pb_norm.specs.BoundedSums.{IsProper};
ghost use Rattle.pb_norm.specs.Classes.{IsAtMostOne, IsCardinality};
ghost use Rattle.pb_counter.specs.Counter.{counter_fresh};
ghost use Rattle.pb_diagram.specs.Clauses.{diagram_fresh};
ghost use Rattle.pb_gentot.specs.Generalized.{generalized_fresh};
ghost use Rattle.pb_totalizer.specs.Totalizer.{totalizer_fresh};

use pb_adder::Adder;
use pb_diagram::Diagram;
use pb_family::Family;
use pb_gentot::Weighted;
use pb_norm::AtMost;
use pb_totalizer::Totalizer;

/// At most one of at least three literals.
#[derive(Drop)]
pub struct AtMostOne {
    pub sum: AtMost,
    pub ghost class: { IsAtMostOne sum },
    pub ghost few: { length sum.terms < 2 ^ 31 },
    pub ghost light: { weight sum.terms < 2 ^ 100 },
}

/// At most so many of more literals, for a counter.
#[derive(Drop)]
pub struct Cardinality {
    pub sum: AtMost,
    pub ghost class: { IsCardinality sum },
    pub ghost few: { length sum.terms < 2 ^ 31 },
    pub ghost light: { weight sum.terms < 2 ^ 100 },
    pub ghost modest: { counter_fresh (length sum.terms) sum.bound ≤ 10000000 },
}

/// A totalizer and its sum.
#[derive(Drop)]
pub struct TotalizerOf {
    pub sum: AtMost,
    pub family: Totalizer,
    pub ghost class: { IsCardinality sum },
    pub ghost few: { length sum.terms < 2 ^ 31 },
    pub ghost light: { weight sum.terms < 2 ^ 100 },
    pub ghost modest: { totalizer_fresh sum ≤ 10000000 },
    pub ghost over: { ⟦<Totalizer as Family>⟧.constraint family ≡ sum },
}

/// An interval diagram and its sum.
#[derive(Drop)]
pub struct DiagramOf {
    pub sum: AtMost,
    pub family: Diagram,
    pub ghost class: { IsProper sum },
    pub ghost few: { length sum.terms < 2 ^ 31 },
    pub ghost light: { weight sum.terms < 2 ^ 100 },
    pub ghost modest: { diagram_fresh sum ≤ 10000000 },
    pub ghost over: { ⟦<Diagram as Family>⟧.constraint family ≡ sum },
}

/// A generalized totalizer and its sum.
#[derive(Drop)]
pub struct TreeOf {
    pub sum: AtMost,
    pub family: Weighted,
    pub ghost class: { IsProper sum },
    pub ghost few: { length sum.terms < 2 ^ 31 },
    pub ghost light: { weight sum.terms < 2 ^ 100 },
    pub ghost modest: { generalized_fresh sum ≤ 10000000 },
    pub ghost over: { ⟦<Weighted as Family>⟧.constraint family ≡ sum },
}

/// A network of adders and its sum.
#[derive(Drop)]
pub struct AdderOf {
    pub sum: AtMost,
    pub family: Adder,
    pub ghost proper: { IsProper sum },
    pub ghost few: { length sum.terms < 2 ^ 31 },
    pub ghost light: { weight sum.terms < 2 ^ 100 },
    pub ghost over: { ⟦<Adder as Family>⟧.constraint family ≡ sum },
}
