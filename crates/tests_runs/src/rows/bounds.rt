use super::cases::{each_checked, each_decoded, each_derived, each_made, each_refuted, each_told};
use super::texts::{COSTS, HEAVY, LINES, LRAT, WEIGHTED_COSTS};

// A bound is the last statement.
const MADE: &[(&str, &str, &str)] = &[
    (
        "pbcnf encode a c --at-most=2",
        COSTS,
        "p cnf 2 2\n1 2 0\n-1 -2 0\n",
    ),
    (
        "pbcnf encode a c --at-most-minus=2",
        COSTS,
        "p cnf 2 2\n1 2 0\n0\n",
    ),
    ("pbcnf encode a c --at-most=3", COSTS, "p cnf 2 1\n1 2 0\n"),
    (
        "pbcnf encode a c --at-most 2",
        COSTS,
        "p cnf 2 2\n1 2 0\n-1 -2 0\n",
    ),
    (
        "pbcnf encode a c --at-most-minus=0",
        COSTS,
        "p cnf 2 2\n1 2 0\n-1 0\n",
    ),
    // A problem without an objective costs nothing.
    (
        "pbcnf encode a c --at-most=0",
        "+1 x1 >= 1 ;\n",
        "p cnf 1 1\n1 0\n",
    ),
    (
        "pbcnf encode a c --at-most-minus=1",
        "+1 x1 >= 1 ;\n",
        "p cnf 1 2\n1 0\n0\n",
    ),
    // The coefficients' absolute values and the bound's add up to one less than 2^100.
    (
        "pbcnf encode a c --at-most=1267650600228229401496703205371",
        COSTS,
        "p cnf 2 1\n1 2 0\n",
    ),
    (
        "pbcnf encode a c --at-most-minus=1267650600228229401496703205371",
        COSTS,
        "p cnf 2 2\n1 2 0\n0\n",
    ),
    (
        "pbcnf encode a c --at-most=1267650600228229401496703205375",
        "+1 x1 >= 1 ;\n",
        "p cnf 1 1\n1 0\n",
    ),
    // The clauses of products come first. One less than 0 is reached by the second product alone.
    (
        "pbcnf encode a c --at-most-minus=1",
        "min: +2 x1 x2 -3 ~x1 x3 ;\n+1 x1 +1 x3 >= 1 ;\n",
        "p cnf 5 8\n1 -4 0\n2 -4 0\n-1 -2 4 0\n-1 -5 0\n3 -5 0\n1 -3 5 0\n1 3 0\n5 0\n",
    ),
];

const REFUSED: &[(&str, &str, &str)] = &[
    (
        "pbcnf encode a c --at-most=1267650600228229401496703205372",
        COSTS,
        HEAVY,
    ),
    (
        "pbcnf decode a m --at-most-minus=1267650600228229401496703205372",
        COSTS,
        HEAVY,
    ),
    (
        "pbcnf check a c p --at-most=1267650600228229401496703205375",
        COSTS,
        HEAVY,
    ),
    (
        "pbcnf refute a c p l --at-most-minus=1267650600228229401496703205375",
        COSTS,
        HEAVY,
    ),
    // It comes before the variables, of which the ladder needs two more.
    (
        "pbcnf encode a c --amo ladder --at-most=1267650600228229401496703205375",
        "* #variable= 2147483646\nmin: +1 x1 ;\n-1 x1 -1 x2 -1 x3 >= -1 ;\n",
        HEAVY,
    ),
    // The text's own fault comes first.
    (
        "pbcnf encode a c --at-most=1267650600228229401496703205375",
        "min: +1 x1 ;\n+1 x1 >= 1",
        "1 pbcnf: OPB 2:11: expected ;",
    ),
    (
        "pbcnf encode a c --at-most=1267650600228229401496703205375",
        "min: +1 x1 ;\n+1267650600228229401496703205376 x1 >= 1 ;\n",
        "3 pbcnf: OPB 2:1: limit weight",
    ),
    // One of the two in a command.
    (
        "pbcnf encode a c --at-most=1 --at-most-minus=1",
        COSTS,
        "2 pbcnf: usage: encode, check, decode, probe or bench",
    ),
];

const DECODED: &[(&str, &str, &str, &str)] = &[
    (
        "pbcnf decode a m --at-most=2",
        COSTS,
        "s SATISFIABLE\nv 1 2 0\n",
        "8 pbcnf: statement 2 is violated",
    ),
    (
        "pbcnf decode a m --at-most=3",
        COSTS,
        "s SATISFIABLE\nv 1 2 0\n",
        "o 3\ns SATISFIABLE\nv x1 x2\n",
    ),
    (
        "pbcnf decode a m --at-most=2",
        COSTS,
        "s SATISFIABLE\nv 2 0\n",
        "o 0\ns SATISFIABLE\nv -x1 x2\n",
    ),
    (
        "pbcnf decode a m --at-most-minus=0",
        COSTS,
        "s SATISFIABLE\nv 2 0\n",
        "o 0\ns SATISFIABLE\nv -x1 x2\n",
    ),
    (
        "pbcnf decode a m --at-most-minus=1",
        COSTS,
        "s SATISFIABLE\nv 2 0\n",
        "8 pbcnf: statement 2 is violated",
    ),
    // The text's own statements come first.
    (
        "pbcnf decode a m --at-most-minus=2",
        COSTS,
        "s SATISFIABLE\nv 0\n",
        "8 pbcnf: statement 1 is violated",
    ),
    (
        "pbcnf decode a m --at-most=2",
        COSTS,
        "s UNSATISFIABLE\n",
        "9 pbcnf: no model",
    ),
];

#[test]
fn bounds(rt: HostRuntime) {
    each_made(&rt, MADE);
    each_told(&rt, REFUSED);
    each_decoded(&rt, DECODED);
}

// Beside the clauses of the costs and a bound of 2.
const CHECKED: &[(&str, &str, &str)] = &[
    ("pbcnf check a c p --at-most=2", LINES, "accepted\n"),
    // A looser bound does not show it, and with none there is one constraint.
    (
        "pbcnf check a c p --at-most=3",
        LINES,
        "7 pbcnf: PROOF line 5: not propagated",
    ),
    (
        "pbcnf check a c p",
        LINES,
        "1 pbcnf: PROOF 2:3: expected loaded count",
    ),
];

const DERIVED: &[(&str, &str, &str)] = &[
    ("", " --at-most=2", COSTS),
    ("", " --at-most-minus=2", COSTS),
    ("", " --at-most=5", WEIGHTED_COSTS),
    ("", " --at-most=4", WEIGHTED_COSTS),
    ("", " --at-most-minus=1", "min: +2 x1 x2 -3 ~x1 x3 ;\n"),
    ("", " --at-most-minus=1", "+1 x1 >= 1 ;\n"),
];

// Nothing that costs less than 1 is a solution, which the refutation shows. Of more it shows nothing.
const REFUTED: &[(&str, &str, &str)] = &[
    ("pbcnf refute a c p l --at-most=0", LRAT, "refuted\n"),
    ("pbcnf refute a c p l --at-most-minus=0", LRAT, "refuted\n"),
    (
        "pbcnf refute a c p l --at-most=1",
        LRAT,
        "7 pbcnf: PROOF line 4: not propagated",
    ),
];

// No objective of one term of 1 comes to -2: the bound is a contradiction by itself.
const CONTRADICTED: &[(&str, &str, &str)] = &[
    ("pbcnf refute a c p l --at-most-minus=2", "", "refuted\n"),
    (
        "pbcnf refute a c p l --at-most-minus=1",
        "",
        "7 pbcnf: PROOF line 3: not implied by 1",
    ),
];

// A problem, its clauses beside a bound, and their derivation.
const LEAST: [&str; 3] = [
    "min: +1 x1 +1 x2 ;\n+1 x1 +1 x2 >= 1 ;\n",
    "p cnf 2 3\n1 2 0\n-1 0\n-2 0\n",
    "pseudo-Boolean derivation profile 1\nf 2\nout 1\nrup +1 ~x1 >= 1 ; 2\nout 3\n\
rup +1 ~x2 >= 1 ; 2\nout 4\nend\n",
];

const ONE_TERM: [&str; 3] = [
    "min: -1 x1 ;\n",
    "p cnf 1 1\n0\n",
    "pseudo-Boolean derivation profile 1\nf 1\nout 1\nend\n",
];

#[test]
fn derivations_beside_bounds(rt: HostRuntime) {
    each_checked(&rt, COSTS, "p cnf 2 2\n1 2 0\n-1 -2 0\n", CHECKED);
    each_derived(&rt, DERIVED);
    each_refuted(&rt, LEAST, REFUTED);
    each_refuted(&rt, ONE_TERM, CONTRADICTED);
}
