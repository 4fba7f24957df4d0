use super::cases::each_decoded;
use super::texts::{DECODE, NO_MODEL, ONE_OF_TWO, PRINTED, SOLUTION, VIOLATED};
use super::told;
use std::alloc::Global;

// What is answered of the problem `a` and what a solver printed, `m`.
pub fn decoded(alloc: Global, words: &str, opb: &str, printed: &str) -> Option<String> {
    let texts = [("a", opb.as_bytes()), ("m", printed.as_bytes())];
    told(alloc, words, &texts)
}

const SOLUTIONS: &[(&str, &str, &str, &str)] = &[
    (DECODE, ONE_OF_TWO, PRINTED, SOLUTION),
    (
        DECODE,
        ONE_OF_TWO,
        "c comment\nv 1\nv -2\nv 0\ns SATISFIABLE\n",
        SOLUTION,
    ),
    // A variable that is not listed is false; those past the problem's do not count.
    (
        DECODE,
        ONE_OF_TWO,
        "s SATISFIABLE\nv 9 -9 2 0",
        "s SATISFIABLE\nv -x1 x2\n",
    ),
    // The value of the objective comes first.
    (
        DECODE,
        "min: +3 x1 -1 ~x2 ;\n+1 x1 +1 x2 = 1 ;\n",
        "s SATISFIABLE\nv 1 0\n",
        "o 2\ns SATISFIABLE\nv x1 -x2\n",
    ),
    (DECODE, "", "s SATISFIABLE\n", "s SATISFIABLE\nv\n"),
    // Variables with free names come after those with numbers.
    (
        DECODE,
        "+1 rain +1 x2 +1 ~sun >= 2 ;\n",
        "s SATISFIABLE\nv 2 3 0\n",
        "s SATISFIABLE\nv -x1 x2 rain -sun\n",
    ),
    // A product is what its literals make it, whatever the model says of its variable.
    (
        DECODE,
        "min: +2 x1 x2 +1 x2 x3 ;\n+1 x1 x2 >= 1 ;\n",
        "s SATISFIABLE\nv 1 2 -3 -4 5 0\n",
        "o 2\ns SATISFIABLE\nv x1 x2 -x3\n",
    ),
];

// Values that are no solution.
const OTHERS: &[(&str, &str, &str, &str)] = &[
    (DECODE, ONE_OF_TWO, "s SATISFIABLE\nv 1 2 0\n", VIOLATED),
    (DECODE, ONE_OF_TWO, "s SATISFIABLE\nv 0\n", VIOLATED),
    (DECODE, ONE_OF_TWO, "s SATISFIABLE\n", VIOLATED),
    // The first of those that are violated is reported, and the last is tested too.
    (
        DECODE,
        "+1 x1 >= 1 ;\n+1 x1 +1 x2 >= 2 ;\n+1 x2 >= 1 ;\n",
        "s SATISFIABLE\nv 1 0\n",
        "8 pbcnf: statement 2 is violated",
    ),
    (
        DECODE,
        "+1 x1 >= 1 ;\n+1 x2 >= 1 ;\n",
        "s SATISFIABLE\nv 1 0\n",
        "8 pbcnf: statement 2 is violated",
    ),
    // The product is false, though the model lists its variable.
    (
        DECODE,
        "+1 x1 x2 >= 1 ;\n",
        "s SATISFIABLE\nv 1 -2 3 0\n",
        VIOLATED,
    ),
    // No model is said.
    (DECODE, ONE_OF_TWO, "s UNSATISFIABLE\n", NO_MODEL),
    (DECODE, ONE_OF_TWO, "", NO_MODEL),
    // The values do not count then.
    (DECODE, ONE_OF_TWO, "v 1 -2 0\n", NO_MODEL),
    (DECODE, ONE_OF_TWO, "s UNKNOWN\nv 1 2 0\n", NO_MODEL),
    (
        DECODE,
        ONE_OF_TWO,
        "s SATISFIABLE at last\nv 1 -2 0\n",
        NO_MODEL,
    ),
];

const REFUSED: &[(&str, &str, &str, &str)] = &[
    // Texts out of the grammar.
    (
        DECODE,
        ONE_OF_TWO,
        "s SATISFIABLE\nv 1 -1 0\n",
        "1 pbcnf: MODEL 2:5: expected opposite",
    ),
    (
        DECODE,
        ONE_OF_TWO,
        "s SATISFIABLE\nv 1 2",
        "1 pbcnf: MODEL 3:1: expected model zero",
    ),
    (
        DECODE,
        ONE_OF_TWO,
        "s SATISFIABLE\ns SATISFIABLE\n",
        "1 pbcnf: MODEL 2:1: expected model line",
    ),
    (
        DECODE,
        ONE_OF_TWO,
        "v 0\nv 1 0\n",
        "1 pbcnf: MODEL 2:1: expected model line",
    ),
    (
        DECODE,
        ONE_OF_TWO,
        "v x1 0\n",
        "1 pbcnf: MODEL 1:3: expected model literal",
    ),
    (
        DECODE,
        ONE_OF_TWO,
        "v 2147483648 0\n",
        "3 pbcnf: MODEL 1:3: limit variables",
    ),
    // The problem's text is judged first.
    (
        DECODE,
        "+1 x1 >= 1",
        "v x1\n",
        "1 pbcnf: OPB 1:11: expected ;",
    ),
    // A text that is not there.
    (
        "pbcnf decode b m",
        ONE_OF_TWO,
        PRINTED,
        "4 pbcnf: read fault",
    ),
    (
        "pbcnf decode a b",
        ONE_OF_TWO,
        PRINTED,
        "4 pbcnf: read fault",
    ),
];

#[test]
fn decodes(rt: HostRuntime) {
    each_decoded(&rt, SOLUTIONS);
    each_decoded(&rt, OTHERS);
    each_decoded(&rt, REFUSED);
}
