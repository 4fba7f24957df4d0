// The clauses of families, as CNFs.
use crate::cases::assert_found;
use crate::samples::families::{Kind, Sum, made};
use pb_adder::adder_has_all_levels;
use pb_amo::product_by_sides;
use std::alloc::Global;

const THREE: &str = "-1 x1 -1 x2 -1 x3 >= -1 ;";

const FIVE: &str = "-1 x1 -1 x2 -1 x3 -1 x4 -1 x5 >= -1 ;";

const TWO_OF_FOUR: &str = "1 ~x1 1 ~x2 1 ~x3 1 ~x4 >= 2 ;";

// At most 5 of 4, 3 and 2: sums that a table holds.
const SMALL: &str = "4 ~x1 3 ~x2 2 ~x3 >= 4 ;";

// The same a large number of times, and one more for the first: the sums stand in the same order, past any table.
const LARGE: &str = "67108865 ~x1 50331648 ~x2 33554432 ~x3 >= 67108865 ;";

// The tree of both.
const MERGED: &str = "p cnf 11 11\n-2 5 0\n-3 4 0\n-2 -3 6 0\n-1 9 0\n-4 7 0\n-5 8 0\n-6 10 0\n\
-1 -4 11 0\n-1 -5 11 0\n-1 -6 11 0\n-11 0\n";

// Families, statements, budgets, first fresh variables, and the CNFs that are due, or that they are over.
const CASES: &[(Kind, &str, u64, u32, &str)] = &[
    // At most one.
    (
        Kind::Pairs,
        THREE,
        0,
        4,
        "p cnf 3 3\n-1 -2 0\n-1 -3 0\n-2 -3 0\n",
    ),
    (
        Kind::Ladder,
        THREE,
        0,
        4,
        "p cnf 5 5\n-5 4 0\n-1 -4 0\n-2 -5 0\n-2 4 0\n-3 5 0\n",
    ),
    (
        Kind::Grid,
        FIVE,
        0,
        6,
        "p cnf 10 14\n-1 6 0\n-1 9 0\n-2 6 0\n-2 10 0\n-3 7 0\n-3 9 0\n-4 7 0\n-4 10 0\n\
-5 8 0\n-5 9 0\n-6 -7 0\n-6 -8 0\n-7 -8 0\n-9 -10 0\n",
    ),
    // Two of four negated, also with a variable too few.
    (
        Kind::Counter,
        TWO_OF_FOUR,
        0,
        5,
        "p cnf 10 13\n-1 5 0\n-6 0\n-2 7 0\n-5 7 0\n-2 -5 8 0\n-6 8 0\n-2 -6 0\n-3 9 0\n\
-7 9 0\n-3 -7 10 0\n-8 10 0\n-3 -8 0\n-4 -10 0\n",
    ),
    (
        Kind::Totalizer,
        TWO_OF_FOUR,
        7,
        5,
        "p cnf 11 14\n-2 5 0\n-1 5 0\n-1 -2 6 0\n-4 7 0\n-3 7 0\n-3 -4 8 0\n-7 9 0\n-8 10 0\n\
-5 9 0\n-5 -7 10 0\n-5 -8 11 0\n-6 10 0\n-6 -7 11 0\n-11 0\n",
    ),
    (Kind::Totalizer, TWO_OF_FOUR, 6, 5, "over"),
    // Three terms, also with a variable too few; and where residues meet.
    (
        Kind::Diagram,
        SMALL,
        3,
        4,
        "p cnf 6 5\n-4 -1 5 0\n-5 6 0\n-5 -2 0\n-6 -3 0\n4 0\n",
    ),
    (Kind::Diagram, SMALL, 2, 4, "over"),
    (
        Kind::Diagram,
        "5 ~x1 4 ~x2 3 ~x3 3 ~x4 >= 7 ;",
        5,
        5,
        "p cnf 9 8\n-5 7 0\n-5 -1 6 0\n-6 8 0\n-6 -2 0\n-7 -2 8 0\n-8 -3 9 0\n-9 -4 0\n5 0\n",
    ),
    (Kind::Tree, SMALL, 8, 4, MERGED),
    (Kind::Tree, LARGE, 8, 4, MERGED),
    (Kind::Tree, SMALL, 7, 4, "over"),
    (Kind::Tree, LARGE, 7, 4, "over"),
    // Three terms, and a literal twice.
    (
        Kind::Adder,
        "-4 x1 -3 x2 -2 x3 >= -5 ;",
        0,
        4,
        "p cnf 7 16\n2 3 -4 0\n2 -3 4 0\n-2 3 4 0\n-2 -3 -4 0\n-2 -3 5 0\n2 -5 0\n3 -5 0\n\
1 5 -6 0\n1 -5 6 0\n-1 5 6 0\n-1 -5 -6 0\n-1 -5 7 0\n1 -7 0\n5 -7 0\n-4 -6 0\n-7 0\n",
    ),
    (
        Kind::Adder,
        "-8 x1 -8 x2 -8 x3 -5 x4 >= -12 ;",
        0,
        5,
        "p cnf 6 16\n1 2 3 -5 0\n1 2 -3 5 0\n1 -2 3 5 0\n1 -2 -3 -5 0\n-1 2 3 5 0\n\
-1 2 -3 -5 0\n-1 -2 3 -5 0\n-1 -2 -3 5 0\n-1 -2 6 0\n-1 -3 6 0\n-2 -3 6 0\n\
1 2 -6 0\n1 3 -6 0\n2 3 -6 0\n-4 -4 -5 0\n-6 0\n",
    ),
];

// At most 600 of the powers of two below 1,024. The greatest counts no more than the 423 that are to be reached.
const POWERS: &str =
    "512 ~x1 256 ~x2 128 ~x3 64 ~x4 32 ~x5 16 ~x6 8 ~x7 4 ~x8 2 ~x9 1 ~x10 >= 423 ;";

fn cnf_of(alloc: Global, kind: Kind, opb: &str, budget: u64, first: u32) -> Option<String> {
    let sum = Sum {
        opb,
        first,
        loaded: 1,
        budget,
    };
    Some(made(alloc, kind, sum)?.cnf)
}

// The p line of the tree of a statement over the first ten variables.
fn tree_head(alloc: Global, opb: &str) -> Option<String> {
    let cnf = cnf_of(alloc, Kind::Tree, opb, 50000, 11)?;
    cnf.lines().next()?.to_string(alloc).ok()
}

#[test]
fn families(rt: HostRuntime) {
    for &(kind, opb, budget, first, expected) in CASES {
        let found = cnf_of(rt.alloc(), kind, opb, budget, first);
        assert_found(&rt, found, expected, opb);
    }
    // Each sum of powers is a value.
    let head = tree_head(rt.alloc(), POWERS);
    assert_found(&rt, head, "p cnf 598 728", POWERS);
    product_by_sides();
    adder_has_all_levels();
}
