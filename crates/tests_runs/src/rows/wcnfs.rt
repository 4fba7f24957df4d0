use super::cases::{each_encoded, each_made, each_told};
use super::texts::{COSTS, PRODUCTS, WCNF};

// Objectives are soft.
const MADE: &[(&str, &str, &str)] = &[
    // No objective, and one that costs nothing.
    (WCNF, "+1 x1 >= 1 ;\n", "c offset 0\nh 1 0\n"),
    (
        WCNF,
        "min: +1 x1 +1 ~x1 ;\n+1 x1 >= 1 ;\n",
        "c offset 1\nh 1 0\n",
    ),
    (
        "pbcnf wcnf a w --at-most-minus=2",
        COSTS,
        "c offset -1\nh 1 2 0\nh 0\n3 -1 0\n1 -2 0\n",
    ),
    // What stands for one variable is added up.
    (
        WCNF,
        "min: +2 sun -3 ~rain -2 x1 +7 rain +2 x1 ;\n+1 rain +1 sun >= 1 ;\n",
        "c offset -3\nh 2 3 0\n2 -2 0\n10 -3 0\n",
    ),
    // Half of all that an objective may weigh, and one less.
    (
        WCNF,
        "min: -633825300114114700748351602688 x1 +633825300114114700748351602687 ~x2 ;\n",
        "c offset -633825300114114700748351602688\n633825300114114700748351602688 1 0\n\
633825300114114700748351602687 2 0\n",
    ),
    // Fresh variables cost nothing.
    (
        "pbcnf wcnf a w --amo ladder",
        "min: -5 x3 +2 x1 ;\n-1 x1 -1 x2 -1 x3 >= -1 ;\n",
        "c offset -5\nh -5 4 0\nh -1 -4 0\nh -2 -5 0\nh -2 4 0\nh -3 5 0\n2 -1 0\n5 3 0\n",
    ),
    // A product has a variable, whose clauses are hard; one that is 0 is dropped.
    (
        "pbcnf wcnf a w --at-most-minus=1",
        PRODUCTS,
        "c offset -3\nh 1 -4 0\nh 2 -4 0\nh -1 -2 4 0\nh -1 -5 0\nh 3 -5 0\nh 1 -3 5 0\nh 1 3 0\nh 5 0\n\
2 -4 0\n3 5 0\n",
    ),
    (WCNF, "min: +1 x1 ~x1 -4 x2 x2 ;\n", "c offset -4\n4 2 0\n"),
];

// Hard clauses are counted.
const ENCODED: &[(&str, &str, &str, &str)] = &[
    (
        WCNF,
        COSTS,
        "c offset -1\nh 1 2 0\n3 -1 0\n1 -2 0\n",
        "variables 2 original 2 fresh 0 clauses 1\nclause 1\n",
    ),
    (
        "pbcnf wcnf a w --at-most=2",
        COSTS,
        "c offset -1\nh 1 2 0\nh -1 -2 0\n3 -1 0\n1 -2 0\n",
        "variables 2 original 2 fresh 0 clauses 2\nclause 2\n",
    ),
    (
        WCNF,
        PRODUCTS,
        "c offset -3\nh 1 -4 0\nh 2 -4 0\nh -1 -2 4 0\nh -1 -5 0\nh 3 -5 0\nh 1 -3 5 0\nh 1 3 0\n\
2 -4 0\n3 5 0\n",
        "variables 5 original 3 fresh 0 clauses 7 products 2\nclause 7\n",
    ),
];

const REFUSED: &[(&str, &str, &str)] = &[
    (WCNF, "+1 x1 >= 1", "1 pbcnf: OPB 1:11: expected ;"),
    (
        "pbcnf wcnf a w --at-most=1267650600228229401496703205375",
        COSTS,
        "3 pbcnf: OPB: limit weight",
    ),
    (
        "pbcnf wcnf a w --amo ladder",
        "* #variable= 2147483646\n-1 x1 -1 x2 -1 x3 >= -1 ;\n",
        "3 pbcnf: totals: limit variables",
    ),
    ("pbcnf wcnf b w", COSTS, "4 pbcnf: read fault"),
    (
        "pbcnf wcnf a w --at-most=1 --at-most-minus=1",
        COSTS,
        "2 pbcnf: usage: encode, check, decode, probe or bench",
    ),
];

#[test]
fn weighted_cnfs(rt: HostRuntime) {
    each_made(&rt, MADE);
    each_encoded(&rt, ENCODED);
    each_told(&rt, REFUSED);
}
