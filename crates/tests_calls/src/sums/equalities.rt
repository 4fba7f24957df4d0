ghost use Rattle.pb_choice.specs.EqualPlans.{IsPlannedBelow};

use crate::cases::assert_found;
use crate::samples::loaded;
use pb_base::{Amo, Card, EqualMode, General, MAX_BUDGET, Options};
use pb_choice::{EqualPlan, plan_equal};
use pb_family::{TextSink, are_below};
use pb_norm::Linear;
use std::alloc::Global;

// The numbers of fresh variables and clauses of a plan, and the clauses.
fn plan_text(alloc: Global, plan: &EqualPlan<'_>) -> Option<String>
    requires { IsPlannedBelow 4 plan.now }
{
    let counts = plan.counts();
    if counts.fresh > 1000 {
        return None;
    }
    let mut sink = TextSink::new(alloc);
    plan.emit(alloc, 4, &mut sink).ok()?;
    let lines = str::from_utf8(sink.text()).ok()?;
    format!(in alloc; "{} {}\n{lines}", counts.fresh, counts.clauses).ok()
}

// The same of the halves of an equality of the variables from 1 to 3.
fn plan_of(alloc: Global, halves: &[Linear], equal: EqualMode, budget: u64) -> Option<String> {
    let [lower, upper] = halves else {
        return None;
    };
    if lower.weight() >= 1 << 100 || upper.weight() >= 1 << 100 {
        return None;
    }
    if budget == 0 || budget > MAX_BUDGET {
        return None;
    }
    if !are_below(lower.terms(), 4) || !are_below(upper.terms(), 4) {
        return None;
    }
    let options = Options {
        amo: Amo::Auto,
        card: Card::Auto,
        general: General::Diagram,
        equal,
        budget,
        table: false,
    };
    let plan = plan_equal(alloc, lower, upper, &options).ok()?;
    plan_text(alloc, &plan)
}

// The same of an equality.
fn planned(alloc: Global, text: &str, equal: EqualMode, budget: u64) -> Option<String> {
    let halves = loaded(alloc, text)?;
    plan_of(alloc, halves.as_slice(), equal, budget)
}

const ONE_OF_THREE: &str = "+1 x1 +1 x2 +1 x3 = 1 ;";

const BOTH_WAYS: &str =
    "4 15\n-3 4 0\n-2 4 0\n-2 -3 5 0\n2 3 -4 0\n2 -5 0\n3 -5 0\n-4 6 0\n-5 7 0\n\
-1 6 0\n-1 -4 7 0\n1 4 -6 0\n1 5 -7 0\n4 -7 0\n6 0\n-7 0\n";

const HALF_BY_HALF: &str = "0 4\n1 2 3 0\n-1 -2 0\n-1 -3 0\n-2 -3 0\n";

// Equalities, modes, budgets, and the plans that are due.
const CASES: &[(&str, EqualMode, u64, &str)] = &[
    (ONE_OF_THREE, EqualMode::Joint, 4, BOTH_WAYS),
    (ONE_OF_THREE, EqualMode::Joint, 3, HALF_BY_HALF),
    (ONE_OF_THREE, EqualMode::Split, 4, HALF_BY_HALF),
    // Two literals are too few, none of three and all of three are no number, nor is half of one.
    (
        "+1 x1 +1 x2 = 1 ;",
        EqualMode::Joint,
        4,
        "0 2\n1 2 0\n-1 -2 0\n",
    ),
    (
        "+1 x1 +1 x2 +1 x3 = 0 ;",
        EqualMode::Joint,
        4,
        "0 3\n-1 0\n-2 0\n-3 0\n",
    ),
    (
        "+1 x1 +1 x2 +1 x3 = 3 ;",
        EqualMode::Joint,
        4,
        "0 3\n1 0\n2 0\n3 0\n",
    ),
    (
        "+2 x1 +2 x2 +2 x3 = 3 ;",
        EqualMode::Joint,
        4,
        "0 6\n1 2 0\n1 3 0\n2 3 0\n-1 -2 0\n-1 -3 0\n-2 -3 0\n",
    ),
];

#[test]
fn equalities(rt: HostRuntime) {
    for &(text, equal, budget, expected) in CASES {
        let found = planned(rt.alloc(), text, equal, budget);
        assert_found(&rt, found, expected, text);
    }
}
