//! The family that was chosen for a sum.

use crate::held::{AdderOf, AtMostOne, Cardinality, DiagramOf, TotalizerOf, TreeOf};
use crate::treatment::Treatment;
use pb_amo::{Ladder, Pairwise, ProductGrid};
use pb_counter::Counter;
use pb_family::{ClauseSink, Derive, Family, SinkResult, StepSink};
use std::alloc::Global;

/// A sum and the family that encodes it. What takes time to build is built once.
pub enum Chosen {
    Pairwise(AtMostOne),
    Ladder(AtMostOne),
    Product(AtMostOne),
    Counter(Cardinality),
    Totalizer(TotalizerOf),
    Diagram(DiagramOf),
    Tree(TreeOf),
    Adder(AdderOf),
}

// Written out, so that it is one call in the proofs of the functions that own one.
impl Drop for Chosen {
    fn drop(self) {
        match self {
            Chosen::Pairwise(_) | Chosen::Ladder(_) | Chosen::Product(_) => {}
            Chosen::Counter(_) => {}
            Chosen::Totalizer(_) => {}
            Chosen::Diagram(_) => {}
            Chosen::Tree(_) => {}
            Chosen::Adder(_) => {}
        }
    }
}

impl Chosen {
    ghost use Rattle.std.specs.Prelude.{◌≡◌};
    ghost use Rattle.pb_choice.specs.Chosen.{treatment_at};

    /// Returns the treatment that names the family.
    pub fn treatment(&self) -> Treatment
        ensures { result ≡ treatment_at self.now }
    {
        match self {
            Chosen::Pairwise(_) => Treatment::Pairwise,
            Chosen::Ladder(_) => Treatment::Ladder,
            Chosen::Product(_) => Treatment::Product,
            Chosen::Counter(_) => Treatment::Counter,
            Chosen::Totalizer(_) => Treatment::Totalizer,
            Chosen::Diagram(_) => Treatment::Diagram,
            Chosen::Tree(_) => Treatment::Tree,
            Chosen::Adder(_) => Treatment::Adder,
        }
    }
}

impl Family for Chosen {
    ghost use Rattle.pb_choice.specs.Chosen.{sum_at, treatment_at};
    ghost use Rattle.pb_choice.specs.inner.Chosen.{chosen_suits};
    ghost use Rattle.pb_choice.specs.Sums.{sum_clauses, sum_count, sum_fresh};
    ghost use Rattle.pb_choice.specs.laws.SumLaws.{sum_counts, sum_extends, sum_names, sum_sound};

    ghost constraint = { λ f. sum_at f };

    ghost fresh_count = { λ f. sum_fresh (treatment_at f) (sum_at f) };

    ghost clause_count = { λ f. sum_count (treatment_at f) (sum_at f) };

    ghost clause_list = { λ f first. sum_clauses (treatment_at f) (sum_at f) first };

    // Returns the number of fresh variables of the chosen family.
    fn fresh(&self) -> u64 {
        match self {
            Chosen::Pairwise(held) => Pairwise::over(&held.sum).fresh(),
            Chosen::Ladder(held) => Ladder::over(&held.sum).fresh(),
            Chosen::Product(held) => ProductGrid::over(&held.sum).fresh(),
            Chosen::Counter(held) => Counter::over(&held.sum).fresh(),
            Chosen::Totalizer(held) => held.family.fresh(),
            Chosen::Diagram(held) => held.family.fresh(),
            Chosen::Tree(held) => held.family.fresh(),
            Chosen::Adder(held) => held.family.fresh(),
        }
    }

    // Returns the number of clauses of the chosen family.
    fn clauses(&self) -> u64 {
        match self {
            Chosen::Pairwise(held) => Pairwise::over(&held.sum).clauses(),
            Chosen::Ladder(held) => Ladder::over(&held.sum).clauses(),
            Chosen::Product(held) => ProductGrid::over(&held.sum).clauses(),
            Chosen::Counter(held) => Counter::over(&held.sum).clauses(),
            Chosen::Totalizer(held) => held.family.clauses(),
            Chosen::Diagram(held) => held.family.clauses(),
            Chosen::Tree(held) => held.family.clauses(),
            Chosen::Adder(held) => held.family.clauses(),
        }
    }

    // Emits the clauses of the chosen family.
    fn emit<S: ClauseSink>(&self, alloc: Global, first: u32, sink: &mut S) -> SinkResult {
        match self {
            Chosen::Pairwise(held) => Pairwise::over(&held.sum).emit(alloc, first, sink),
            Chosen::Ladder(held) => Ladder::over(&held.sum).emit(alloc, first, sink),
            Chosen::Product(held) => ProductGrid::over(&held.sum).emit(alloc, first, sink),
            Chosen::Counter(held) => Counter::over(&held.sum).emit(alloc, first, sink),
            Chosen::Totalizer(held) => held.family.emit(alloc, first, sink),
            Chosen::Diagram(held) => held.family.emit(alloc, first, sink),
            Chosen::Tree(held) => held.family.emit(alloc, first, sink),
            Chosen::Adder(held) => held.family.emit(alloc, first, sink),
        }
    }

    ghost sound = { λ f first below a model. sum_sound (treatment_at f) (sum_at f) first (chosen_suits f) a model };

    ghost extends = { λ f first below a holds. sum_extends (treatment_at f) (sum_at f) first (chosen_suits f) below a holds };

    ghost counts = { λ f first. sum_counts (treatment_at f) (sum_at f) first (chosen_suits f) };

    ghost names = { λ f first. sum_names (treatment_at f) (sum_at f) first (chosen_suits f) };
}

impl Derive for Chosen {
    ghost use Rattle.pb_choice.specs.Chosen.{sum_at, treatment_at};
    ghost use Rattle.pb_choice.specs.inner.Chosen.{chosen_derivable, chosen_room};
    ghost use Rattle.pb_choice.specs.SumSteps.{sum_steps};
    ghost use Rattle.pb_choice.specs.laws.SumDerives.{sum_derives, sum_few, sum_sayable, sum_short};

    ghost step_list = { λ f. sum_steps (treatment_at f) (sum_at f) };

    // Emits the steps that derive the clauses of the chosen family.
    fn derive<T: StepSink>(&self, alloc: Global, first: u32, id: u64, sink: &mut T) -> SinkResult {
        match self {
            Chosen::Pairwise(held) => Pairwise::over(&held.sum).derive(alloc, first, id, sink),
            Chosen::Ladder(held) => Ladder::over(&held.sum).derive(alloc, first, id, sink),
            Chosen::Product(held) => ProductGrid::over(&held.sum).derive(alloc, first, id, sink),
            Chosen::Counter(held) => Counter::over(&held.sum).derive(alloc, first, id, sink),
            Chosen::Totalizer(held) => held.family.derive(alloc, first, id, sink),
            Chosen::Diagram(held) => held.family.derive(alloc, first, id, sink),
            Chosen::Tree(held) => held.family.derive(alloc, first, id, sink),
            Chosen::Adder(held) => held.family.derive(alloc, first, id, sink),
        }
    }

    ghost derives = { λ f first id db below ready. sum_derives (treatment_at f) (sum_at f) (chosen_derivable f) first id db below ready };

    ghost few_steps = { λ f first id next. sum_few (treatment_at f) (sum_at f) (chosen_derivable f) first id next };

    ghost sayable = { λ f first id next original start. sum_sayable (treatment_at f) (sum_at f) (chosen_derivable f) (chosen_room f) first id next original start };

    ghost short = { λ f first id next original start. sum_short (treatment_at f) (sum_at f) (chosen_derivable f) (chosen_room f) first id next original start };
}
