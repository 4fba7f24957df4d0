use super::cases::{each_encoded, each_made, each_told};
use super::texts::{
    CONFLICT, JOINTLY, ONE_JOINT, ONE_OF_THREE, ONE_SPLIT, PAIR, PAIR_JOINT, SAID_JOINT, SAID_PAIR,
    SAID_SPLIT,
};

// Both halves as one.
const ENCODED: &[(&str, &str, &str, &str)] = &[
    ("pbcnf encode a c", ONE_OF_THREE, ONE_SPLIT, SAID_SPLIT),
    (
        "pbcnf encode a c --equal split",
        ONE_OF_THREE,
        ONE_SPLIT,
        SAID_SPLIT,
    ),
    (JOINTLY, ONE_OF_THREE, ONE_JOINT, SAID_JOINT),
    // Just within the budget, and past it.
    (
        "pbcnf encode a c --equal joint --budget 4",
        ONE_OF_THREE,
        ONE_JOINT,
        SAID_JOINT,
    ),
    (
        "pbcnf encode a c --equal joint --budget 3",
        ONE_OF_THREE,
        ONE_SPLIT,
        SAID_SPLIT,
    ),
    (JOINTLY, PAIR, PAIR_JOINT, SAID_PAIR),
];

// Which are one.
const MADE: &[(&str, &str, &str)] = &[
    // A coefficient that all have, and literals of either sign.
    (
        JOINTLY,
        "+2 x1 +2 x2 +2 x3 = 4 ;\n",
        "p cnf 8 18\n-3 4 0\n-2 4 0\n-2 -3 5 0\n2 3 -4 0\n2 -5 0\n3 -5 0\n\
-4 6 0\n-5 7 0\n-1 6 0\n-1 -4 7 0\n-1 -5 8 0\n1 4 -6 0\n1 5 -7 0\n1 -8 0\n4 -7 0\n5 -8 0\n7 0\n-8 0\n",
    ),
    (
        JOINTLY,
        "+2 x1 -2 x2 +2 ~x3 +2 x4 = 2 ;\n",
        "p cnf 11 27\n2 5 0\n-1 5 0\n-1 2 6 0\n1 -2 -5 0\n1 -6 0\n-2 -6 0\n\
-4 7 0\n3 7 0\n3 -4 8 0\n-3 4 -7 0\n-3 -8 0\n4 -8 0\n\
-7 9 0\n-8 10 0\n-5 9 0\n-5 -7 10 0\n-5 -8 11 0\n-6 10 0\n-6 -7 11 0\n\
5 7 -9 0\n5 8 -10 0\n5 -11 0\n6 7 -10 0\n6 8 -11 0\n7 -11 0\n10 0\n-11 0\n",
    ),
    // Two literals; none of three, and all; no whole number of them; two coefficients; at least, not exactly.
    (
        JOINTLY,
        "+1 x1 +1 x2 = 1 ;\n",
        "p cnf 2 2\n1 2 0\n-1 -2 0\n",
    ),
    (
        JOINTLY,
        "+1 x1 +1 x2 +1 x3 = 0 ;\n",
        "p cnf 3 3\n-1 0\n-2 0\n-3 0\n",
    ),
    (
        JOINTLY,
        "+1 x1 +1 x2 +1 x3 = 3 ;\n",
        "p cnf 3 3\n1 0\n2 0\n3 0\n",
    ),
    (
        JOINTLY,
        "+2 x1 +2 x2 +2 x3 = 3 ;\n",
        "p cnf 3 6\n1 2 0\n1 3 0\n2 3 0\n-1 -2 0\n-1 -3 0\n-2 -3 0\n",
    ),
    (
        JOINTLY,
        "+2 x1 +1 x2 +1 x3 = 4 ;\n",
        "p cnf 3 3\n1 0\n2 0\n3 0\n",
    ),
    (
        JOINTLY,
        "+1 x1 +1 x2 +1 x3 >= 1 ;\n",
        "p cnf 3 1\n1 2 3 0\n",
    ),
    // The fresh variables of the second come after those of the first.
    (
        JOINTLY,
        "+1 x1 +1 x2 >= 1 ;\n+1 x1 +1 x2 +1 x3 = 1 ;\n+1 ~x3 >= 1 ;\n",
        "p cnf 7 17\n1 2 0\n-3 4 0\n-2 4 0\n-2 -3 5 0\n2 3 -4 0\n2 -5 0\n3 -5 0\n\
-4 6 0\n-5 7 0\n-1 6 0\n-1 -4 7 0\n1 4 -6 0\n1 5 -7 0\n4 -7 0\n6 0\n-7 0\n-3 0\n",
    ),
    // Weighted CNFs too.
    (
        "pbcnf wcnf a w --equal joint",
        "min: +2 x1 ;\n+1 x1 +1 x2 +1 x3 = 1 ;\n",
        "c offset 0\nh -3 4 0\nh -2 4 0\nh -2 -3 5 0\nh 2 3 -4 0\nh 2 -5 0\nh 3 -5 0\n\
h -4 6 0\nh -5 7 0\nh -1 6 0\nh -1 -4 7 0\nh 1 4 -6 0\nh 1 5 -7 0\nh 4 -7 0\nh 6 0\nh -7 0\n2 -1 0\n",
    ),
];

// What unit propagation reaches over both halves as one: each half by itself does not reach so much.
const REACHED: &[(&str, &str, &str)] = &[
    (
        "pbcnf probe a ~x1 ~x2",
        ONE_JOINT,
        "fixed -1 -2 3 4 -5 6 -7 0\n",
    ),
    (
        "pbcnf probe a x1",
        ONE_JOINT,
        "fixed 1 -2 -3 -4 -5 6 -7 0\n",
    ),
    ("pbcnf probe a x1 x2", ONE_JOINT, CONFLICT),
    ("pbcnf probe a ~x1 ~x2 ~x3", ONE_JOINT, CONFLICT),
];

#[test]
fn equalities(rt: HostRuntime) {
    each_encoded(&rt, ENCODED);
    each_made(&rt, MADE);
    each_told(&rt, REACHED);
}
