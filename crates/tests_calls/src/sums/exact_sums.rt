ghost use Rattle.std.specs.Prelude.{◌≡◌, ◌<◌, ◌≤◌, ◌^◌, ◌∷◌, [], true};
ghost use Rattle.std.specs.Option.{IfSome};
ghost use Rattle.pb_family.specs.Budgets.{IfFits};
ghost use Rattle.pb_family.specs.Families.{VarsBelow};

use crate::cases::assert_found;
use pb_base::{Lit, Lits, Var};
use pb_family::{Built, Pair, TextSink};
use pb_totalizer::Exact;
use std::alloc::Global;

// The numbers and the clauses of a pair over the first three variables.
fn pair_text<P: Pair>(alloc: Global, pair: &P) -> Option<String>
    requires { VarsBelow 4 (P.most pair.now).terms }
{
    if pair.fresh() > 1000 {
        return None;
    }
    let mut sink = TextSink::new(alloc);
    pair.emit(alloc, 4, &mut sink).ok()?;
    let lines = str::from_utf8(sink.text()).ok()?;
    format!(in alloc; "{} {}\n{lines}", pair.fresh(), pair.clauses()).ok()
}

fn variable(index: u32) -> Lit
    requires low { 1 ≤ index }
    requires high { index < 2 ^ 31 }
    ensures { result ≡ record { var = index; positive = true } }
{
    Lit {
        var: Var::new(index),
        positive: true,
    }
}

fn three(alloc: Global) -> Option<Lits>
    ensures { IfSome result (λ ls. ls ≡ record { var = 1; positive = true } ∷ record { var = 2; positive = true } ∷ record { var = 3; positive = true } ∷ []) }
{
    let lits = vec![in alloc; variable(1), variable(2), variable(3)].ok()?;
    Some(Lits::from_vec(lits))
}

// The same of one that fits its budget.
fn built_text(alloc: Global, built: &Built<Exact>) -> Option<String>
    requires { IfFits (λ exact. VarsBelow 4 (⟦<Exact as Pair>⟧.most exact).terms) built.now }
{
    match built {
        Built::Fits(exact) => pair_text(alloc, exact),
        Built::Over => "over".to_string(alloc).ok(),
    }
}

// The totalizer of exactly one of three literals, within a budget.
fn one_of_three(alloc: Global, budget: u64) -> Option<String> {
    let lits = three(alloc)?;
    built_text(alloc, &Exact::build(alloc, &lits, 1, budget).ok()?)
}

#[test]
fn exact_sums(rt: HostRuntime) {
    let found = one_of_three(rt.alloc(), 4);
    let expected = "4 15\n-3 4 0\n-2 4 0\n-2 -3 5 0\n2 3 -4 0\n2 -5 0\n3 -5 0\n-4 6 0\n-5 7 0\n\
-1 6 0\n-1 -4 7 0\n1 4 -6 0\n1 5 -7 0\n4 -7 0\n6 0\n-7 0\n";
    assert_found(&rt, found, expected, "one of three");
    // Three are too few.
    let found = one_of_three(rt.alloc(), 3);
    assert_found(&rt, found, "over", "one of three");
}
