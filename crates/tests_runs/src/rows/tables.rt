use super::cases::{each_derived, each_encoded, each_told};
use super::texts::{CONFLICT, COSTS_BY_LINES, MANY, SAID_UNIT, TABLE, TABLED, UNIT};

// Objectives have rows.
const ENCODED: &[(&str, &str, &str, &str)] = &[
    (
        TABLE,
        COSTS_BY_LINES,
        TABLED,
        "variables 5 original 2 fresh 3 clauses 6\nclause 1\nbound 0 3\nbound 2 4\nbound 3 5\n",
    ),
    // A single term is its own literal, as it costs.
    (
        TABLE,
        "min: +5 x1 ;\n+1 x1 >= 1 ;\n",
        UNIT,
        "variables 1 original 1 fresh 0 clauses 1\nnothing 1\nbound 5 1\n",
    ),
    (
        TABLE,
        "min: -2 x1 ;\n+1 x1 >= 1 ;\n",
        UNIT,
        "variables 1 original 1 fresh 0 clauses 1\nnothing 1\nbound 0 -1\n",
    ),
    // No objective, and one that costs nothing.
    (TABLE, "+1 x1 >= 1 ;\n", UNIT, SAID_UNIT),
    (
        TABLE,
        "min: +1 x1 +1 ~x1 ;\n+1 x1 >= 1 ;\n",
        UNIT,
        SAID_UNIT,
    ),
    // After the clauses of a bound, and the fresh variables of a constraint.
    (
        "pbcnf encode a c --table --at-most=2",
        COSTS_BY_LINES,
        "p cnf 5 7\n1 2 0\n-1 -2 0\n-1 4 0\n-2 3 0\n-1 -2 5 0\n-4 3 0\n-5 4 0\n",
        "variables 5 original 2 fresh 3 clauses 7\nclause 2\nbound 0 3\nbound 2 4\nbound 3 5\n",
    ),
    (
        "pbcnf encode a c --table --amo ladder",
        "min: +1 x1 +2 x3 ;\n-1 x1 -1 x2 -1 x3 >= -1 ;\n",
        "p cnf 8 10\n-5 4 0\n-1 -4 0\n-2 -5 0\n-2 4 0\n-3 5 0\n-3 7 0\n-1 6 0\n-3 -1 8 0\n-7 6 0\n-8 7 0\n",
        "variables 8 original 3 fresh 5 clauses 10\nladder 1\nbound 1 6\nbound 2 7\nbound 3 8\n",
    ),
    // And of an equality that is encoded as one.
    (
        "pbcnf encode a c --table --equal joint",
        "min: +3 x1 -1 ~x2 ;\n+1 x1 +1 x2 +1 x3 = 1 ;\n",
        "p cnf 10 20\n-3 4 0\n-2 4 0\n-2 -3 5 0\n2 3 -4 0\n2 -5 0\n3 -5 0\n-4 6 0\n-5 7 0\n-1 6 0\n-1 -4 7 0\n\
1 4 -6 0\n1 5 -7 0\n4 -7 0\n6 0\n-7 0\n-1 9 0\n-2 8 0\n-1 -2 10 0\n-9 8 0\n-10 9 0\n",
        "variables 10 original 3 fresh 7 clauses 20\njoint 2\nbound 0 8\nbound 2 9\nbound 3 10\n",
    ),
];

const DERIVED: &[(&str, &str, &str)] = &[
    (" --table", "", COSTS_BY_LINES),
    (" --table", "", "+1 x1 >= 1 ;\n"),
    (" --table", "", "min: +5 x1 ;\n+1 x1 >= 1 ;\n"),
    (
        " --table",
        "",
        "min: +3 x1 +5 x2 -4 x3 x4 +2 ~x5 +2 x6 ;\n+4 ~x1 +3 ~x2 +2 ~x3 >= 4 ;\n",
    ),
    (
        " --table --equal joint",
        "",
        "min: +3 x1 -1 ~x2 ;\n+1 x1 +1 x2 +1 x3 = 1 ;\n+1 x2 +1 x3 >= 1 ;\n",
    ),
];

// Rows propagate: less than 2, than 0, and than 3.
const REACHED: &[(&str, &str, &str)] = &[
    ("pbcnf probe a ~x4", TABLED, "fixed -1 2 3 -4 -5 0\n"),
    ("pbcnf probe a ~x3", TABLED, CONFLICT),
    ("pbcnf probe a ~x5 x1", TABLED, "fixed 1 -2 3 4 -5 0\n"),
];

const REFUSED: &[(&str, &str, &str)] = &[
    (
        "pbcnf encode a c --table --budget 2",
        COSTS_BY_LINES,
        "3 pbcnf: totals: limit bounds",
    ),
    // The table is judged before the variables, and these with those of the table.
    (
        "pbcnf encode a c --table --budget 2",
        MANY,
        "3 pbcnf: totals: limit bounds",
    ),
    (
        "pbcnf encode a c --table --budget 3",
        MANY,
        "3 pbcnf: totals: limit variables",
    ),
    (
        "pbcnf encode a c --table --budget 2 --at-most=1267650600228229401496703205375",
        COSTS_BY_LINES,
        "3 pbcnf: OPB: limit weight",
    ),
    (
        "pbcnf wcnf a c --table",
        COSTS_BY_LINES,
        "2 pbcnf: usage: encode, check, decode, probe or bench",
    ),
];

#[test]
fn tables(rt: HostRuntime) {
    each_encoded(&rt, ENCODED);
    each_derived(&rt, DERIVED);
    each_told(&rt, REACHED);
    each_told(&rt, REFUSED);
}
